// Refusals and bytes in words, for programs that talk to people.
// What a refusal means is fixed by the layer that makes it.
#![tactic(auto)]

ghost use Rattle.std.specs.Prelude.{◌≡◌};

use refusal::Fault;
use refusal::told::{Layer, Refusal};
use std::fmt;

// Bytes in hexadecimal, two digits each, with a space between; the field names what is shown.
#[derive(Drop)]
pub struct Hex<'a> {
    pub bytes: &'a [u8],
}

impl fmt::Display for Hex<'_> {
    fn fmt<W: fmt::Write>(&self, f: &mut fmt::Formatter<W>) -> fmt::Result {
        let mut gap = "";
        for byte in self.bytes {
            write!(f, "{gap}{byte:02X}")?;
            gap = " ";
        }
        Ok(())
    }
}

// A Display of Layer would stand in crate refusal, which the card carries too.
fn layer_name(layer: Layer) -> &'static str {
    match layer {
        Layer::Sets => "parameter sets",
        Layer::Loading => "loading",
        Layer::Operators => "operators",
        Layer::Sinks => "sinks",
        Layer::Session => "session",
        Layer::Solving => "solving",
        Layer::Maker => "maker",
        Layer::Host => "host",
    }
}

// By number, as docs/REFUSALS.md lists them: a Refusal keeps the number and not the fault.
fn meaning(number: u8) -> &'static str {
    match number {
        1 => "no parameter set has this name",
        2 => "the key has not 2(t+n) bytes",
        3 => "an entry of the key is no field element",
        4 => "a support entry stands there a second time",
        5 => "the Goppa polynomial is zero at this support entry",
        6 => "the size is 0 or above 1664",
        7 => "the matrix has not N rows of bytes",
        8 => "a vector or the memory for a result has a wrong length",
        9 => "the two sizes differ",
        10 => "the key's set or the blinding's size is not the session's",
        11 => "the inverse memory has a wrong length",
        12 => "the working memory is too short",
        13 => "the reply memory is too short",
        14 => "the frame is empty or its kind unknown",
        15 => "the frame has a wrong length",
        16 => "the session no longer takes such a frame",
        17 => "there is no such column",
        18 => "another row comes next",
        19 => "the row times B is not the unit row",
        20 => "the combination is zero",
        21 => "the combination times B is not zero",
        22 => "rows are still missing",
        23 => "the product was shown singular",
        24 => "all columns are published",
        25 => "the sink's size is not that of a column",
        26 => "the sink is full",
        27 => "the sink's limit or memory is wrong",
        28 => "this column is not taken yet",
        29 => "the tables have a wrong size",
        30 => "a length or the reply awaited is wrong",
        31 => "an entry is no field element",
        32 => "the powers are dependent",
        _ => "unknown",
    }
}

// A refusal as a sentence.
#[derive(Clone, Copy)]
pub struct Words {
    pub refusal: Refusal,
}

impl<F: Fault> From<F> for Words {
    ghost from_gives = { λ fault r. r.refusal ≡ F.told fault };

    fn from(fault: F) -> Words {
        Words {
            refusal: fault.refusal(),
        }
    }
}

impl fmt::Display for Words {
    fn fmt<W: fmt::Write>(&self, f: &mut fmt::Formatter<W>) -> fmt::Result {
        let Refusal {
            layer,
            number,
            place,
        } = self.refusal;
        let (layer, words) = (layer_name(layer), meaning(number));
        write!(f, "refused by {number} at place {place} ({layer}): {words}")
    }
}
