// Refusals: every layer's fault enum tells by this trait its layer, its number and its place.
// A fault of a lower layer stays whole inside the fault of the layer above, and tells its own.
#![tactic(auto)]

ghost use Rattle.std.specs.Prelude.{◌≡◌};
ghost use Rattle.refusal.specs.Refusals.{refused};
ghost use Rattle.refusal.specs.declared.told.Refusal.{Refusal};

pub mod told;

use told::{Layer, Refusal};

impl Refusal {
    // A place above 65,535 is told as 65,535.
    pub fn new(layer: Layer, number: u8, place: usize) -> Refusal
        ensures { result ≡ refused layer number place }
    {
        Refusal {
            layer,
            number,
            place: u16::try_from(place).unwrap_or(u16::MAX),
        }
    }
}

pub trait Fault: Copy {
    // what each case of the fault is refused by
    ghost told: { Self → Refusal };

    fn refusal(self) -> Refusal
        ensures { result ≡ told self };

    fn layer(self) -> Layer
        ensures { result ≡ (told self).layer }
    {
        self.refusal().layer
    }

    fn number(self) -> u8
        ensures { result ≡ (told self).number }
    {
        self.refusal().number
    }

    fn place(self) -> u16
        ensures { result ≡ (told self).place }
    {
        self.refusal().place
    }
}
