// Refusals, each with a sentence that tells what to do.
use refusal::Fault;
use std::fmt;
use words::Words;

// By the numbers of docs/REFUSALS.md; those that this program can meet.
fn sentence(number: u8) -> &'static str {
    match number {
        1 => "Spell the set's name as in the table of parameter sets.",
        2 => "Give a key of 2(t+n) bytes, and the set that it was made for.",
        3 => "Give entries below 2^m, and the set that the key was made for.",
        4 => "Give a support in which every entry stands once.",
        5 => "Give a Goppa polynomial that is not zero on the support.",
        7 => "Give a blinding of mt rows of bytes.",
        23 => "Take another blinding: this one times the check block has no inverse.",
        _ => "Start again; if it happens again, look for a broken file.",
    }
}

// A refusal in words, and what to do about it.
#[derive(Clone, Copy)]
pub(super) struct Advice {
    words: Words,
    number: u8,
}

impl<F: Fault> From<F> for Advice {
    fn from(fault: F) -> Advice {
        let number = fault.number();
        Advice {
            words: Words::from(fault),
            number,
        }
    }
}

impl fmt::Display for Advice {
    fn fmt<W: fmt::Write>(&self, f: &mut fmt::Formatter<W>) -> fmt::Result {
        write!(f, "{}. {}", self.words, sentence(self.number))
    }
}
