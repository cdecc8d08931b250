// practice12 has degree 2 and 16 elements in its field, practice20 degree 3 and 32.
use maker::fault::MakerFault;
use maker::make;
use refusal::Fault;
use refusal::told::Layer;
use std::process::Abort;

// What a call gave: the refusal's number and place, 0 where it was taken, and the result's bytes.
#[derive(Clone, Copy, PartialEq, Eq)]
struct Outcome {
    number: u8,
    place: u16,
    goppa: [u8; 4],
}

fn told(made: Result<(), MakerFault>) -> (u8, u16) {
    match made {
        Ok(()) => (0, 0),
        Err(fault) => (fault.number(), fault.place()),
    }
}

// Makes a polynomial of practice12 from two entries; the tables and the result begin with other content.
fn of_two(b0: u8, b1: u8) -> Outcome {
    let mut goppa = [0xA5; 4];
    let made = make(
        "practice12",
        &[b0, 0, b1, 0],
        &mut [0xFFFF; 4],
        &mut [7; 4],
        &mut goppa,
    );
    let (number, place) = told(made);
    Outcome {
        number,
        place,
        goppa,
    }
}

#[test]
fn makes_the_known_ones(rt: HostRuntime) {
    // y is a root of x^2 + x + 8
    let made = Outcome {
        number: 0,
        place: 0,
        goppa: [8, 0, 1, 0],
    };
    assert!(rt; of_two(0, 1) == made);
    // 1 is an element of the field itself
    let refused = Outcome {
        number: 32,
        place: 0,
        goppa: [0xA5; 4],
    };
    assert!(rt; of_two(1, 0) == refused);
    // y^3 = y + 1 in practice20
    let mut goppa = [0; 6];
    let made = make(
        "practice20",
        &[0, 0, 1, 0, 0, 0],
        &mut [0; 9],
        &mut [0; 9],
        &mut goppa,
    );
    assert!(rt; made.is_ok());
    assert!(rt; goppa == [1, 0, 1, 0, 0, 0]);
}

// An element of degree 2 over the field has a polynomial; the 16 of the field itself have none.
#[test]
fn makes_all_of_practice12(rt: HostRuntime) {
    let mut refused = 0usize;
    for b1 in 0..16 {
        for b0 in 0..16 {
            let outcome = of_two(b0, b1);
            if b1 == 0 {
                assert!(rt; outcome.number == 32 && outcome.goppa == [0xA5; 4]);
                refused = refused.saturating_add(1);
            } else {
                assert!(rt; outcome.number == 0);
            }
        }
    }
    assert!(rt; refused == 16);
}

// Lent memories of these lengths, all 0xA5 or 0xA5A5, refused with a number and a place, and left as they are.
fn refuses(rt: &impl Abort, name: &str, beta: &[u8], lengths: [usize; 3], expected: (u8, u16)) {
    let mut powers = [0xA5A5; 5];
    let mut inverse = [0xA5A5; 5];
    let mut goppa = [0xA5; 5];
    let [p, i, g] = lengths;
    let made = make(
        name,
        beta,
        &mut powers[..p.min(5)],
        &mut inverse[..i.min(5)],
        &mut goppa[..g.min(5)],
    );
    assert!(rt; told(made) == expected);
    assert!(rt; powers == [0xA5A5; 5] && inverse == [0xA5A5; 5] && goppa == [0xA5; 5]);
}

#[test]
fn refuses_in_order_and_changes_nothing(rt: HostRuntime) {
    let y = [0, 0, 1, 0];
    // the name first, spelled exactly so
    refuses(&rt, "practice13", &[], [0, 0, 0], (1, 0));
    refuses(&rt, "Practice12", &y, [4, 4, 4], (1, 0));
    // each length, before the entries
    refuses(&rt, "practice12", &[0, 0, 1], [4, 4, 4], (30, 0));
    refuses(&rt, "practice12", &[0, 0, 1, 0, 0], [4, 4, 4], (30, 0));
    refuses(&rt, "practice12", &y, [3, 4, 4], (30, 0));
    refuses(&rt, "practice12", &y, [4, 5, 4], (30, 0));
    refuses(&rt, "practice12", &[16, 0, 1, 0], [4, 4, 3], (30, 0));
    // the first entry that is no element, in either byte
    refuses(&rt, "practice12", &[15, 0, 16, 0], [4, 4, 4], (31, 1));
    refuses(&rt, "practice12", &[0, 1, 16, 0], [4, 4, 4], (31, 0));
}

#[test]
fn tells_the_layer(rt: HostRuntime) {
    assert!(rt; MakerFault::Length.layer() == Layer::Maker);
    let unknown = make("", &[], &mut [], &mut [], &mut []);
    assert!(rt; unknown.map_err(|fault| fault.layer()) == Err(Layer::Sets));
}
