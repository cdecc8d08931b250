// A card makes a public key, told in plain words and hexadecimal: one session to its end, with wrong
// frames in between, and one whose blinded matrix has no inverse. Then our host does the same against the card.
#![tactic(auto)]

use block::SlotKey;
use goppa::slot::KeySlot;
use key::Key;
use operator::stored::StoredMatrix;
use refusal::Fault;
use runs::calls::{Call, Event};
use runs::run;
use session::state::{Open, Ready};
use sink::Sink;
use sink::key::PackedKey;
use std::io;
use words::{Hex, Words};

// practice12 has 8 rows and 4 public columns; a vector of 8 bits is one byte.
const ROWS: usize = 8;

const REST: usize = 4;

// Other programs have these as well: each is read alone, its frames beside its blinding.
const BLINDING: [u8; 8] = [0x03, 0x02, 0x04, 0x08, 0x10, 0x20, 0x40, 0x80];

const SINGULAR: [u8; 8] = [0x02, 0x02, 0x04, 0x08, 0x10, 0x20, 0x40, 0x80];

// The rows of the inverse of B, as a host finds them.
const HOST_ROWS: [u8; 8] = [0x4e, 0x4a, 0x5d, 0x5a, 0xc7, 0xcb, 0x3a, 0x3b];

// Frames byte for byte, since wrong ones are sent too.
// No frame at all, an unknown kind, a cut frame, a column too many, a row too early, a wrong row,
// the zero combination, a combination that B does not send to zero.
const WRONG: [&[u8]; 8] = [
    &[],
    &[0xff],
    &[0x11, 0],
    &[0x11, 8, 0],
    &[0x12, 1, 0, 0x4a],
    &[0x12, 0, 0, 0x4a],
    &[0x13, 0],
    &[0x13, 3],
];

// The status, and a row after the last.
const LATE: [&[u8]; 2] = [&[0x14], &[0x12, 7, 0, 0x3b]];

// Claims that B is singular: by nothing, by a wrong combination, by a right one; the status.
const CLAIMS: [&[u8]; 4] = [&[0x13, 0], &[0x13, 1], &[0x13, 3], &[0x14]];

// A session under way, and what a card keeps beside it; as in other programs, each of which is read alone.
#[derive(Drop)]
struct Bench<'a> {
    rt: &'a HostRuntime,
    key: SlotKey<'a>,
    blinding: StoredMatrix<'a>,
    session: Open,
    inverse: [u8; ROWS],
}

impl<'a> Bench<'a> {
    fn new(rt: &'a HostRuntime, key: SlotKey<'a>, rows: &'a [u8]) -> Bench<'a> {
        Bench {
            rt,
            key,
            blinding: StoredMatrix::new(ROWS, rows),
            session: Open::new(&key),
            inverse: [0; ROWS],
        }
    }

    // One frame and its reply, in hexadecimal and in words.
    fn exchange(&mut self, frame: &[u8]) -> io::Result<()> {
        let mut working = [0u8; 2];
        let mut memory = [0u8; 4];
        let answer = self.session.answer(
            &self.key,
            &self.blinding,
            &mut self.inverse,
            &mut working,
            frame,
            &mut memory,
        );
        let sent = Hex { bytes: frame };
        let reply = Hex {
            bytes: &memory[..answer.length],
        };
        println!(self.rt; "    host {sent} | card {reply}")?;
        match answer.fault {
            Some(fault) => explain(self.rt, fault),
            None => Ok(()),
        }
    }

    fn ask_columns(&mut self) -> io::Result<()> {
        println!(self.rt; "  The host asks the columns of B, blinding times check block:")?;
        for j in 0..8u8 {
            self.exchange(&[0x11, j, 0])?;
        }
        Ok(())
    }

    // Frames that are told one after another.
    fn play(&mut self, frames: &[&[u8]]) -> io::Result<()> {
        for frame in frames {
            self.exchange(frame)?;
        }
        Ok(())
    }

    fn send_rows(&mut self) -> io::Result<()> {
        println!(self.rt;
            "  The rows of B's inverse; the card checks each and keeps it times the blinding:"
        )?;
        for (i, row) in (0u8..8).zip(HOST_ROWS) {
            self.exchange(&[0x12, i, 0, row])?;
        }
        let kept = Hex {
            bytes: &self.inverse,
        };
        println!(self.rt; "  Complete. The card holds the inverse of its check block, rows {kept}.")
    }

    // A closing that is refused hands the session back. The session checks do it on a bench of their own,
    // and tell it in other words.
    fn close_early(self) -> io::Result<Option<Bench<'a>>> {
        match self.session.close() {
            Ok(_) => Ok(None),
            Err(still) => {
                println!(self.rt; "  The session is not closed:")?;
                explain(self.rt, still.fault)?;
                Ok(Some(Bench {
                    session: still.session,
                    ..self
                }))
            }
        }
    }

    // The last closing, and what is published after it.
    fn close(self) -> io::Result<()> {
        match self.session.close() {
            Ok(ready) => publish(self.rt, &self.key, ready, &self.inverse),
            Err(still) => explain(self.rt, still.fault),
        }
    }
}

// as in session_checks, in words of its own
fn explain<F: Fault>(rt: &HostRuntime, fault: F) -> io::Result<()> {
    println!(rt; "      {}", Words::from(fault))
}

// as in loading_checks, which tries wrong columns too
fn show_column(rt: &HostRuntime, key: &SlotKey<'_>, j: usize) -> io::Result<()> {
    let mut column = [0u8; 1];
    let _ = key.column(j, &mut column);
    let column = Hex { bytes: &column };
    println!(rt; "    {j:>2}  {column}")
}

fn show_key(rt: &HostRuntime, key: &SlotKey<'_>) -> io::Result<()> {
    let (g0, g1) = (key.slot.goppa[0], key.slot.goppa[1]);
    let (first, last) = (key.slot.support[0], key.slot.support[11]);
    println!(rt;
        "The key: set practice12, m = 4, t = 2, n = 12; 8 rows, 4 public columns, 1 byte to a vector."
    )?;
    println!(rt; "  Goppa polynomial x^2 + {g1} x + {g0}, support {first} to {last}.")?;
    println!(rt; "  Columns of the private check matrix H, the first 8 being the check block:")?;
    for j in 0..ROWS + REST {
        show_column(rt, key, j)?;
    }
    Ok(())
}

fn show_public(rt: &HostRuntime, store: &PackedKey<'_>, c: usize) -> io::Result<()> {
    let mut column = [0u8; 1];
    let _ = store.read(c, &mut column);
    let column = Hex { bytes: &column };
    println!(rt; "    public column {c}: {column}")
}

fn publish(
    rt: &HostRuntime,
    key: &SlotKey<'_>,
    mut ready: Ready,
    inverse: &[u8],
) -> io::Result<()> {
    println!(rt; "  The ready session publishes column by column, until there is no more:")?;
    let mut memory = [0u8; ROWS];
    let mut store = PackedKey::new(&mut memory, ROWS, REST);
    for c in 0..=REST {
        let mut working = [0u8; 2];
        match ready.publish(key, inverse, &mut working, &mut store) {
            Ok(()) => show_public(rt, &store, c)?,
            Err(fault) => explain(rt, fault)?,
        }
    }
    show_packed(rt, store.bytes())
}

// The session checks have this as well, in words of their own.
fn show_packed(rt: &HostRuntime, bytes: &[u8]) -> io::Result<()> {
    let packed = Hex { bytes };
    println!(rt; "  The packed public key, row after row: {packed}")
}

fn complete_session(rt: &HostRuntime, key: SlotKey<'_>) -> io::Result<()> {
    let rows = Hex { bytes: &BLINDING };
    println!(rt; "\nA session with blinding rows {rows}.")?;
    let mut bench = Bench::new(rt, key, &BLINDING);
    bench.ask_columns()?;
    println!(rt; "  A host that errs or lies: each frame is refused, and changes nothing:")?;
    bench.play(&WRONG)?;
    let Some(mut bench) = bench.close_early()? else {
        return Ok(());
    };
    bench.send_rows()?;
    println!(rt; "  The status, and a row that comes too late:")?;
    bench.play(&LATE)?;
    bench.close()
}

fn singular_session(rt: &HostRuntime, key: SlotKey<'_>) -> io::Result<()> {
    let rows = Hex { bytes: &SINGULAR };
    println!(rt; "\nA session with blinding rows {rows}, two of them equal.")?;
    let mut bench = Bench::new(rt, key, &SINGULAR);
    bench.ask_columns()?;
    println!(rt;
        "  The host claims that B has no inverse; the card believes a nonzero v with v B = 0 only:"
    )?;
    bench.play(&CLAIMS)?;
    let _ = bench.close_early()?;
    Ok(())
}

fn tell_event(rt: &HostRuntime, event: &Event) -> io::Result<()> {
    match event {
        Event::Answered {
            frame,
            answer,
            reply,
            ..
        } => {
            let sent = Hex { bytes: frame };
            let reply = Hex {
                bytes: &reply[..answer.length.min(reply.len())],
            };
            println!(rt; "    host {sent} | card {reply}")
        }
        Event::Closed { fault: None } => println!(rt; "    the session is closed"),
        Event::Published { fault: None, .. } => println!(rt; "    a public column is sent"),
        Event::Closed { fault: Some(fault) } => explain(rt, *fault),
        Event::Published {
            fault: Some(fault),
            ..
        } => explain(rt, *fault),
        Event::NotAllowed { .. } => println!(rt; "    the session has no such call"),
    }
}

// Our host against the card, with no frame by hand, then the calls that come after it; the packed public key.
fn our_host(
    rt: &HostRuntime,
    key: SlotKey<'_>,
    rows: &[u8],
    rest: &[Call<'_>],
) -> io::Result<[u8; ROWS]> {
    let hex = Hex { bytes: rows };
    println!(rt; "\nOur host and the card, with blinding rows {hex}.")?;
    let blinding = StoredMatrix::new(ROWS, rows);
    let mut inverse = [0; ROWS];
    let mut memory = [0; ROWS];
    let mut store = PackedKey::new(&mut memory, ROWS, REST);
    let run = run(
        rt.alloc(),
        &key,
        &blinding,
        &mut inverse,
        &mut store,
        &[],
        Some("practice12"),
        rest,
    );
    for event in &run.events {
        tell_event(rt, event)?;
    }
    Ok(memory)
}

fn main(rt: HostRuntime) -> io::Result<()> {
    let slot = KeySlot::new();
    let key = SlotKey { slot: &slot };
    show_key(&rt, &key)?;
    complete_session(&rt, key)?;
    singular_session(&rt, key)?;
    let publish = Call::Publish { working: 2 };
    let packed = our_host(
        &rt,
        key,
        &BLINDING,
        &[Call::Close, publish, publish, publish, publish],
    )?;
    show_packed(&rt, &packed)?;
    our_host(&rt, key, &SINGULAR, &[Call::Close])?;
    Ok(())
}
