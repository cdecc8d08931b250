// practice12 has mt = 8 and L = 1: tables of 64 cells, and frames of up to 4 bytes.
use host::Host;
use host::fault::HostFault;
use refusal::Fault;
use refusal::told::Layer;
use std::process::Abort;

// The columns of the check block, a byte each.
const BLOCK: [u8; 8] = [0x0F, 0xFF, 0x63, 0x53, 0x68, 0xE8, 0xC2, 0xE2];

// Those of B, with the blinding of the worked example.
const BLINDED: [u8; 8] = [0x0E, 0xFE, 0x62, 0x52, 0x68, 0xE8, 0xC3, 0xE3];

// The rows of the inverse of B from row 2 on.
const MISSING: [u8; 6] = [0x5D, 0x5A, 0xC7, 0xCB, 0x3A, 0x3B];

// The status of a card that has taken two rows.
const STATUS: [u8; 4] = [0x24, 0, 2, 0];

// A host with its memories, which begin with other content than it needs.
#[derive(Drop)]
struct Desk {
    host: Host,
    first: [u8; 64],
    second: [u8; 64],
}

impl Desk {
    fn new(rt: &impl Abort) -> Desk {
        Desk {
            host: Host::new("practice12").ok().expect(rt, "practice12"),
            first: [7; 64],
            second: [9; 64],
        }
    }

    // The next frame is this one, and the rest of its memory stays.
    fn says(&mut self, rt: &impl Abort, expected: &[u8]) {
        let mut frame = [0xA5; 4];
        let said = self
            .host
            .speak(&mut self.first, &mut self.second, &mut frame);
        assert!(rt; said.is_ok_and(|length| length == Some(expected.len())));
        for (k, x) in frame.iter().enumerate() {
            assert!(rt; *x == expected.get(k).copied().unwrap_or(0xA5));
        }
    }

    // There is no more to say.
    fn ends(&mut self, rt: &impl Abort) {
        let mut frame = [0xA5; 4];
        let said = self
            .host
            .speak(&mut self.first, &mut self.second, &mut frame);
        assert!(rt; said.is_ok_and(|length| length.is_none()));
        assert!(rt; frame == [0xA5; 4]);
    }

    fn hears(&mut self, rt: &impl Abort, reply: &[u8]) {
        assert!(rt; self.host.hear(&mut self.first, reply).is_ok());
    }

    // Asks for the columns and the status, and is told these.
    fn learns(&mut self, rt: &impl Abort, columns: &[u8; 8]) {
        for (j, column) in (0..8).zip(columns) {
            self.says(rt, &[0x11, j, 0]);
            self.hears(rt, &[0x21, j, 0, *column]);
        }
        self.says(rt, &[0x14]);
        self.hears(rt, &STATUS);
    }

    // Refuses a reply, and then has no more to say.
    fn refuses(&mut self, rt: &impl Abort, reply: &[u8]) {
        let heard = self.host.hear(&mut self.first, reply);
        assert!(rt; told(heard) == (30, 0));
        self.ends(rt);
    }
}

// The number and the place of a refusal, 0 where there is none.
fn told(outcome: Result<(), HostFault>) -> (u8, u16) {
    match outcome {
        Ok(()) => (0, 0),
        Err(fault) => (fault.number(), fault.place()),
    }
}

// Column j of B for the blinding 02 02 04 08 10 20 40 80: its rows 0 and 1 are row 1 of the block.
fn twice(column: u8) -> u8 {
    column & 0xFE | (column >> 1) & 1
}

#[test]
fn sends_the_missing_rows(rt: HostRuntime) {
    let mut desk = Desk::new(&rt);
    desk.learns(&rt, &BLINDED);
    for (i, row) in (2..8).zip(MISSING) {
        desk.says(&rt, &[0x12, i, 0, row]);
        desk.hears(&rt, &[0x22, i, 0]);
    }
    desk.ends(&rt);
    desk.ends(&rt);
}

#[test]
fn sends_a_combination(rt: HostRuntime) {
    let mut desk = Desk::new(&rt);
    desk.learns(&rt, &BLOCK.map(twice));
    desk.says(&rt, &[0x13, 0x03]);
    desk.hears(&rt, &[0x23]);
    desk.ends(&rt);
}

#[test]
fn repeats_a_frame_that_has_no_reply(rt: HostRuntime) {
    let mut desk = Desk::new(&rt);
    desk.says(&rt, &[0x11, 0, 0]);
    desk.says(&rt, &[0x11, 0, 0]);
}

// Nothing but columns and the status is looked at.
#[test]
fn looks_at_no_other_reply(rt: HostRuntime) {
    let mut desk = Desk::new(&rt);
    desk.learns(&rt, &BLINDED);
    desk.says(&rt, &[0x12, 2, 0, 0x5D]);
    desk.hears(&rt, &[0x2F, 19, 0, 0]);
    desk.says(&rt, &[0x12, 3, 0, 0x5A]);
}

#[test]
fn refuses_replies_not_awaited(rt: HostRuntime) {
    let wrong: [&[u8]; 6] = [
        &[],
        &[0x21, 0, 0],
        &[0x21, 0, 0, 0x0E, 0],
        &[0x21, 1, 0, 0x0E],
        &[0x21, 0, 1, 0x0E],
        &[0x2F, 17, 0, 0],
    ];
    for reply in wrong {
        let mut desk = Desk::new(&rt);
        desk.says(&rt, &[0x11, 0, 0]);
        desk.refuses(&rt, reply);
    }
    let wrong: [&[u8]; 6] = [
        &[],
        &[0x24, 0, 2],
        &[0x24, 0, 2, 0, 0],
        &[0x24, 1, 2, 0],
        &[0x24, 0, 8, 0],
        &[0x24, 0, 2, 1],
    ];
    for reply in wrong {
        let mut desk = Desk::new(&rt);
        for (j, column) in (0..8).zip(BLINDED) {
            desk.hears(&rt, &[0x21, j, 0, column]);
        }
        desk.says(&rt, &[0x14]);
        desk.refuses(&rt, reply);
    }
}

// Tables and frame memory of these lengths are refused and stay as they are.
fn refuses(rt: &impl Abort, host: &mut Host, lengths: [usize; 3]) {
    let mut first = [7; 65];
    let mut second = [9; 65];
    let mut frame = [0xA5; 5];
    let [a, b, f] = lengths;
    let said = host.speak(
        &mut first[..a.min(65)],
        &mut second[..b.min(65)],
        &mut frame[..f.min(5)],
    );
    assert!(rt; told(said.map(|_| ())) == (30, 0));
    assert!(rt; first == [7; 65] && second == [9; 65] && frame == [0xA5; 5]);
}

#[test]
fn refuses_lengths_and_goes_on(rt: HostRuntime) {
    let mut desk = Desk::new(&rt);
    for lengths in [
        [63, 64, 4],
        [65, 64, 4],
        [64, 63, 4],
        [64, 65, 4],
        [64, 64, 3],
        [64, 64, 5],
    ] {
        refuses(&rt, &mut desk.host, lengths);
    }
    let mut first = [7; 65];
    let heard = desk.host.hear(&mut first, &[0x21, 0, 0, 0x0E]);
    assert!(rt; told(heard) == (30, 0));
    assert!(rt; first == [7; 65]);
    desk.learns(&rt, &BLINDED);
}

#[test]
fn refuses_unknown_names(rt: HostRuntime) {
    for name in ["", "practice13", "Practice12"] {
        let fault = Host::new(name).err().expect(&rt, "no set");
        assert!(rt; fault.number() == 1 && fault.place() == 0);
        assert!(rt; fault.layer() == Layer::Sets);
    }
    assert!(rt; HostFault::Length.layer() == Layer::Host);
    assert!(rt; HostFault::Reply.layer() == Layer::Host);
}
