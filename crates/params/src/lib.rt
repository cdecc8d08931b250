// The seven parameter sets, chosen by name.
// Whoever holds a set may rely on the relations between its numbers: they are part of its type.
// The field of 2^m elements is crate field; what F(y) is used for is crate maker's.
#![tactic(auto)]

ghost use Rattle.std.specs.Prelude.{◌≡◌, ◌+◌, ◌-◌, ◌*◌, ◌/◌};
ghost use Rattle.params.specs.Related.{Related};
ghost use Rattle.params.specs.Sets.{numbers, numbers_or, named, practice12, told_sets};

pub mod numbers;
pub mod set;
mod table;

use numbers::Numbers;
use refusal::Fault;
use refusal::told::{Layer, Refusal};
use set::{ParameterSet, SetFault};
use table::SETS;

// The set of these numbers.
fn set_of(row: Numbers) -> ParameterSet
    requires { Related row }
    ensures { numbers result ≡ row }
{
    let Numbers { m, f, t, n, terms } = row;
    ParameterSet { m, f, t, n, terms }
}

// The set of a name: here a name meets its row of the table.
// The names stand here and not in the table, since a match on them proves with no loop.
pub fn find_set(name: &str) -> Result<ParameterSet, SetFault>
    ensures { numbers_or result ≡ named name.now }
{
    match name {
        "practice12" => Ok(set_of(SETS[0])),
        "practice20" => Ok(set_of(SETS[1])),
        "mceliece348864" => Ok(set_of(SETS[2])),
        "mceliece460896" => Ok(set_of(SETS[3])),
        "mceliece6688128" => Ok(set_of(SETS[4])),
        "mceliece6960119" => Ok(set_of(SETS[5])),
        "mceliece8192128" => Ok(set_of(SETS[6])),
        _ => Err(SetFault::Name),
    }
}

impl ParameterSet {
    // The set that a new key slot is of.
    pub fn practice12() -> ParameterSet
        ensures { numbers result ≡ practice12 }
    {
        // by its row, as in find_set: with the name there would be a refusal to answer for
        set_of(SETS[0])
    }

    // The order of the check block: mt.
    pub fn rows(self) -> usize
        ensures { result ≡ self.m * self.t }
    {
        // m is a u32, as Rust counts bits, and usize has no From<u32>
        self.m as usize * self.t
    }

    // The bytes of a packed vector of mt bits: L.
    pub fn bytes(self) -> usize
        ensures { result ≡ (self.m * self.t + 7) / 8 }
    {
        self.rows().div_ceil(8)
    }

    // The columns beside the check block: k.
    pub fn rest(self) -> usize
        ensures { result ≡ self.n - self.m * self.t }
    {
        self.n - self.rows()
    }
}

impl Fault for SetFault {
    ghost told = { told_sets };

    fn refusal(self) -> Refusal {
        match self {
            SetFault::Name => Refusal::new(Layer::Sets, 1, 0),
        }
    }
}
