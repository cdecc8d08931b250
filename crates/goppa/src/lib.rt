// The private key: the check matrix of a Goppa polynomial as a definition, and the key slot.
// Every slot holds a key of its set and 0 past it, with a support without repeats on which g is not zero; loading
// takes a key whole, or refuses it and leaves the slot as it was. Crate block makes an operator of it.
#![tactic(auto)]

ghost use Rattle.std.specs.Prelude.{◌≡◌};
ghost use Rattle.goppa.specs.Loading.{told_loading};
ghost use Rattle.goppa.specs.declared.fault.LoadFault.TheVariants.{Set};

mod bytes;
pub mod fault;
mod over;
pub mod slot;

use fault::LoadFault;
use params::set::SetFault;
use refusal::Fault;
use refusal::told::{Layer, Refusal};

// By hand, since `load` promises which error its `?` gives.
impl From<SetFault> for LoadFault {
    ghost from_gives = { λ e r. r ≡ Set e };

    fn from(e: SetFault) -> LoadFault {
        LoadFault::Set(e)
    }
}

impl Fault for LoadFault {
    ghost told = { told_loading };

    fn refusal(self) -> Refusal {
        match self {
            LoadFault::Set(fault) => fault.refusal(),
            LoadFault::Length(length) => Refusal::new(Layer::Loading, 2, length),
            LoadFault::Large(entry) => Refusal::new(Layer::Loading, 3, entry),
            LoadFault::Repeated(entry) => Refusal::new(Layer::Loading, 4, entry),
            LoadFault::Root(entry) => Refusal::new(Layer::Loading, 5, entry),
        }
    }
}
