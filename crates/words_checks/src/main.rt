// Tells every layer and every number of a refusal in words, and bytes in hexadecimal.
#![tactic(auto)]

ghost use Rattle.refusal.specs.Refusals.{refused};

use refusal::Fault;
use refusal::told::{Layer, Refusal};
use std::io;
use words::{Hex, Words};

const LAYERS: [Layer; 8] = [
    Layer::Sets,
    Layer::Loading,
    Layer::Operators,
    Layer::Sinks,
    Layer::Session,
    Layer::Solving,
    Layer::Maker,
    Layer::Host,
];

// A fault that tells what it is made of.
#[derive(Clone, Copy)]
struct Case {
    layer: Layer,
    number: u8,
    place: usize,
}

impl Fault for Case {
    ghost told = { λ c. refused c.layer c.number c.place };

    fn refusal(self) -> Refusal {
        Refusal::new(self.layer, self.number, self.place)
    }
}

fn tell(rt: &HostRuntime, case: Case) -> io::Result<()> {
    println!(rt; "{}", Words::from(case))
}

fn show(rt: &HostRuntime, bytes: &[u8]) -> io::Result<()> {
    let hex = Hex { bytes };
    println!(rt; "bytes: {hex}.")
}

fn main(rt: HostRuntime) -> io::Result<()> {
    // 0 and 33 are no refusal's number
    for number in 0..34 {
        let layer = Layer::Session;
        tell(
            &rt,
            Case {
                layer,
                number,
                place: 7,
            },
        )?;
    }
    for layer in LAYERS {
        tell(
            &rt,
            Case {
                layer,
                number: 255,
                place: 70000,
            },
        )?;
    }
    show(&rt, &[])?;
    show(&rt, &[0x0A])?;
    show(&rt, &[0x00, 0xF0, 0xFF])
}
