// A card session run through all its refusals on practice12 and practice20: each line tells what is
// tried, the bytes, and the refusal or ok.
#![tactic(auto)]

mod cases;

use block::SlotKey;
use cases::{Lending, Length, Lent, Plan, Tried};
use goppa::slot::KeySlot;
use operator::stored::StoredMatrix;
use refusal::Fault;
use session::state::{Open, Ready};
use sink::Sink;
use sink::key::PackedKey;
use std::io;
use words::{Hex, Words};

// Memories as long as the longest case lends, so that nothing is left to fail for want of memory: the
// inverse (a byte longer than practice20 asks), working and reply memory, rows of a packed key.
const INVERSE: usize = 31;

const LENT: usize = 8;

const ROWS: usize = 15;

// An open session, and what it is run with.
// Other programs have a bench of their own: each is read alone.
#[derive(Drop)]
struct Bench<'a> {
    rt: &'a HostRuntime,
    key: SlotKey<'a>,
    blinding: StoredMatrix<'a>,
    session: Open,
    inverse: [u8; INVERSE],
    fit: Lent,
}

impl<'a> Bench<'a> {
    fn new(rt: &'a HostRuntime, plan: &Plan, key: SlotKey<'a>, rows: &'a [u8]) -> Bench<'a> {
        Bench {
            rt,
            key,
            blinding: StoredMatrix::new(plan.size, rows),
            session: Open::new(&key),
            inverse: [0; INVERSE],
            fit: plan.fit,
        }
    }

    // One frame in memories of the lengths told, and what it is answered.
    fn exchange(&mut self, what: &str, lent: Lent, frame: &[u8]) -> io::Result<()> {
        let (mut working, mut memory) = ([0xa5; LENT], [0xa5; LENT]);
        let Some(working) = working.get_mut(..lent.working) else {
            return Ok(());
        };
        let Some(memory) = memory.get_mut(..lent.reply) else {
            return Ok(());
        };
        let Some(inverse) = self.inverse.get_mut(..lent.inverse) else {
            return Ok(());
        };
        let answer = self
            .session
            .answer(&self.key, &self.blinding, inverse, working, frame, memory);
        if !is_zero(working) {
            println!(self.rt; "  working memory NOT CLEARED")?;
        }
        let sent = Hex { bytes: frame };
        let reply = Hex {
            bytes: &memory[..answer.length],
        };
        print!(self.rt; "  {what}: [{sent}] gives [{reply}], ")?;
        tell(self.rt, answer.fault)
    }

    // Frames one after another.
    fn play(&mut self, frames: &[Tried]) -> io::Result<()> {
        for (what, frame) in frames {
            self.exchange(what, self.fit, frame)?;
        }
        Ok(())
    }

    fn ask_status(&mut self, what: &str, lent: Lent) -> io::Result<()> {
        self.exchange(what, lent, &[0x14])
    }

    // The status, in memories of several lengths.
    fn lend(&mut self) -> io::Result<()> {
        for case in cases::ANSWERING {
            self.ask_status(case.0, lent_as(case, self.fit))?;
        }
        Ok(())
    }

    fn ask_columns(&mut self, columns: u8) -> io::Result<()> {
        for j in 0..columns {
            self.exchange("column", self.fit, &[0x11, j, 0])?;
        }
        Ok(())
    }

    // The session of the other set; a blinding of size 1; both.
    fn refuse_sizes(&mut self, other: SlotKey<'a>) -> io::Result<()> {
        let (own, one) = (self.blinding, StoredMatrix::new(0, &[]));
        let mut stranger = Bench {
            session: Open::new(&other),
            ..*self
        };
        stranger.ask_status("session of the other set", self.fit)?;
        self.blinding = one;
        stranger.blinding = one;
        self.ask_status("blinding of size 1", self.fit)?;
        stranger.ask_status("both", self.fit)?;
        self.blinding = own;
        Ok(())
    }

    // A closing that is refused hands the session back. The walkthrough does it on a bench of its own,
    // and tells it in other words.
    fn close_early(self) -> io::Result<Option<Bench<'a>>> {
        match self.session.close() {
            Ok(_) => Ok(None),
            Err(still) => {
                print!(self.rt; "  closing: ")?;
                tell(self.rt, Some(still.fault))?;
                Ok(Some(Bench {
                    session: still.session,
                    ..self
                }))
            }
        }
    }
}

// A closed session, and what it publishes with.
#[derive(Drop)]
struct Closed<'a> {
    rt: &'a HostRuntime,
    plan: &'a Plan,
    key: SlotKey<'a>,
    other: SlotKey<'a>,
    ready: Ready,
    inverse: [u8; INVERSE],
}

impl<'a> Closed<'a> {
    // One publishing with a key, in memories of the lengths told.
    fn publish_with(
        &mut self,
        what: &str,
        key: SlotKey<'_>,
        lent: Lent,
        store: &mut PackedKey<'_>,
    ) -> io::Result<()> {
        // wrong lengths are the cases, so a length says what is lent
        let mut working = [0xa5; LENT];
        let Some(working) = working.get_mut(..lent.working) else {
            return Ok(());
        };
        let Some(inverse) = self.inverse.get(..lent.inverse) else {
            return Ok(());
        };
        let published = self.ready.publish(&key, inverse, working, store);
        print!(self.rt; "  publishing, {what}: ")?;
        if !is_zero(working) {
            print!(self.rt; "working memory NOT CLEARED, ")?;
        }
        tell(self.rt, published.err())
    }

    fn publish(&mut self, what: &str, store: &mut PackedKey<'_>) -> io::Result<()> {
        self.publish_with(what, self.key, self.plan.fit, store)
    }

    // What is lent too short or too long.
    fn publish_short(&mut self, store: &mut PackedKey<'_>) -> io::Result<()> {
        for case in cases::PUBLISHING {
            let lent = lent_as(case, self.plan.fit);
            self.publish_with(case.0, self.key, lent, store)?;
        }
        Ok(())
    }

    // A sink of another size; made of values that are refused, a sink has size 1.
    fn publish_elsewhere(&mut self) -> io::Result<()> {
        let mut memory = [0u8; 7];
        let mut small = PackedKey::new(&mut memory, 7, 1);
        self.publish("sink of size 7", &mut small)?;
        let mut memory = [0u8; 1];
        let mut unmade = PackedKey::new(&mut memory, self.plan.size, self.plan.rest);
        self.publish("sink that was not made", &mut unmade)
    }

    // A sink with room for one column, and that taken.
    fn publish_full(&mut self) -> io::Result<()> {
        let (mut memory, column) = ([0; ROWS], [0; LENT]);
        let Some(memory) = memory.get_mut(..self.plan.size) else {
            return Ok(());
        };
        let Some(column) = column.get(..self.plan.bytes) else {
            return Ok(());
        };
        let mut full = PackedKey::new(memory, self.plan.size, 1);
        let _ = full.take(column);
        self.publish("full sink", &mut full)
    }

    // What is refused before the first column.
    fn publish_nothing(&mut self, store: &mut PackedKey<'_>) -> io::Result<()> {
        self.publish_with("key of the other set", self.other, self.plan.fit, store)?;
        self.publish_short(store)?;
        self.publish_elsewhere()?;
        self.publish_full()?;
        read(self.rt, store, 0, self.plan.bytes)
    }

    // All columns, and one more.
    fn publish_all(&mut self, store: &mut PackedKey<'_>) -> io::Result<()> {
        for _ in 0..self.plan.rest {
            self.publish("next column", store)?;
        }
        self.publish("one column more", store)?;
        self.publish_elsewhere()
    }

    fn run(&mut self) -> io::Result<()> {
        let (rt, plan) = (self.rt, self.plan);
        let mut memory = [0; ROWS];
        let Some(memory) = memory.get_mut(..plan.size) else {
            return Ok(());
        };
        let mut store = PackedKey::new(memory, plan.size, plan.rest);
        self.publish_nothing(&mut store)?;
        self.publish_all(&mut store)?;
        read_all(rt, &store, plan)?;
        show_packed(rt, store.bytes())
    }
}

// A memory that is to have `fit` bytes; if longer, by `more`.
fn length_of(length: Length, fit: usize, more: usize) -> usize {
    match length {
        Length::Fit => fit,
        Length::Empty => 0,
        Length::Short => fit.saturating_sub(1),
        Length::Long => fit.saturating_add(more),
    }
}

fn lent_as(case: Lending, fit: Lent) -> Lent {
    let (_, inverse, working, reply) = case;
    Lent {
        inverse: length_of(inverse, fit.inverse, 1),
        working: length_of(working, fit.working, 2),
        reply: length_of(reply, fit.reply, 2),
    }
}

// The contract says that working memory is cleared; here it is looked at as it runs.
fn is_zero(bytes: &[u8]) -> bool {
    bytes.iter().all(|byte| *byte == 0)
}

// The end of a line: ok, or the refusal.
fn tell<F: Fault>(rt: &HostRuntime, fault: Option<F>) -> io::Result<()> {
    match fault {
        None => println!(rt; "ok"),
        Some(fault) => println!(rt; "{}", Words::from(fault)),
    }
}

// The walkthrough has this as well, in words of its own.
fn show_packed(rt: &HostRuntime, bytes: &[u8]) -> io::Result<()> {
    let packed = Hex { bytes };
    println!(rt; "  the packed key: {packed}")
}

// Column j in memory of a length.
fn read(rt: &HostRuntime, store: &PackedKey<'_>, j: usize, length: usize) -> io::Result<()> {
    let mut memory = [0; LENT];
    let Some(out) = memory.get_mut(..length) else {
        return Ok(());
    };
    let done = store.read(j, out);
    let column = Hex { bytes: out };
    print!(rt; "  reading column {j}: [{column}], ")?;
    tell(rt, done.err())
}

// All columns, then the first one and one that is not there in memory of several lengths.
fn read_all(rt: &HostRuntime, store: &PackedKey<'_>, plan: &Plan) -> io::Result<()> {
    for j in 0..plan.rest {
        read(rt, store, j, plan.bytes)?;
    }
    for j in [0, plan.rest] {
        for length in 0..4usize {
            read(rt, store, j, length)?;
        }
    }
    Ok(())
}

// A session whose B has no inverse: phase 2.
fn singular(rt: &HostRuntime, plan: &Plan, key: SlotKey<'_>) -> io::Result<()> {
    let mut bench = Bench::new(rt, plan, key, plan.singular);
    bench.play(plan.claims)?;
    bench.play(plan.late)?;
    let _ = bench.close_early()?;
    Ok(())
}

// A whole session: phase 0 without a row; three rows, and what is refused between them and the others;
// the other rows, and what is refused in phase 1; closing and publishing.
fn run(rt: &HostRuntime, plan: &Plan, key: SlotKey<'_>, other: SlotKey<'_>) -> io::Result<()> {
    let name = plan.name;
    println!(rt; "{name}")?;
    singular(rt, plan, key)?;
    let mut bench = Bench::new(rt, plan, key, plan.blinding);
    bench.refuse_sizes(other)?;
    bench.lend()?;
    bench.ask_columns(plan.columns)?;
    bench.play(plan.wrong)?;
    let Some(mut bench) = bench.close_early()? else {
        return Ok(());
    };
    bench.play(plan.begin)?;
    bench.play(plan.middle)?;
    let Some(mut bench) = bench.close_early()? else {
        return Ok(());
    };
    bench.play(plan.end)?;
    bench.play(plan.late)?;
    match bench.session.close() {
        Err(still) => tell(rt, Some(still.fault)),
        Ok(ready) => {
            let inverse = bench.inverse;
            let mut closed = Closed {
                rt,
                plan,
                key,
                other,
                ready,
                inverse,
            };
            closed.run()
        }
    }
}

fn check_all(rt: &HostRuntime) -> io::Result<()> {
    println!(rt; "making a packed key")?;
    for (what, length, size, limit) in cases::MAKES {
        // long enough for each of them
        let memory = [0; 30];
        if let Some(part) = memory.get(..length) {
            print!(rt; "  {what}: ")?;
            tell(rt, PackedKey::check(part, size, limit).err())?;
        }
    }
    Ok(())
}

fn main(rt: HostRuntime) -> io::Result<()> {
    let slot12 = KeySlot::new();
    let mut slot20 = KeySlot::new();
    if slot20.load("practice20", &cases::KEY20).is_err() {
        return println!(rt; "the key of practice20 is refused");
    }
    let key12 = SlotKey { slot: &slot12 };
    let key20 = SlotKey { slot: &slot20 };
    run(&rt, &cases::PLAN12, key12, key20)?;
    run(&rt, &cases::PLAN20, key20, key12)?;
    check_all(&rt)
}
