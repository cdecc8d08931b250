// Makes a public key: card and host in one process, one call at a time, told as it goes; then the file.
use crate::Command;
use crate::advice::Advice;
use crate::files::Files;
use block::SlotKey;
use goppa::slot::KeySlot;
use host::Host;
use host::fault::HostFault;
use operator::stored::StoredMatrix;
use refusal::Fault;
use runs::calls::{Call, Event, Stage, Step};
use runs::{begin, make};
use session::fault::SessionFault;
use sink::key::PackedKey;
use std::alloc::Global;
use std::io;
use std::time::{Duration, Instant};

// Counts to `of`, and tells each eighth of it.
#[derive(Drop)]
struct Progress {
    what: &'static str,
    done: usize,
    of: usize,
}

impl Progress {
    fn new(what: &'static str, of: usize) -> Progress {
        Progress { what, done: 0, of }
    }

    fn step(&mut self, rt: &HostRuntime) -> io::Result<()> {
        self.done = self.done.saturating_add(1);
        let eighth = self.of.div_ceil(8).max(1);
        if self.done % eighth == 0 || self.done == self.of {
            eprintln!(rt; "{} {} of {}", self.what, self.done, self.of)?;
        }
        Ok(())
    }
}

// When each part ended. The host solves before it sends the status, and a frame is told when it is sent.
#[derive(Drop)]
struct Clock {
    columns: Progress,
    rows: Progress,
    start: Instant,
    asked: Instant,
    solved: Instant,
    taken: Instant,
    end: Instant,
}

impl Clock {
    fn new(rt: &HostRuntime, n: usize) -> io::Result<Clock> {
        let now = Instant::now(rt)?;
        Ok(Clock {
            columns: Progress::new("columns", n),
            rows: Progress::new("rows", n),
            start: now,
            asked: now,
            solved: now,
            taken: now,
            end: now,
        })
    }

    // A frame of the host is on its way: its first byte is its kind.
    fn sent(&mut self, rt: &HostRuntime, frame: &[u8]) -> io::Result<()> {
        match frame.first() {
            Some(0x11) => {
                self.asked = Instant::now(rt)?;
                self.columns.step(rt)?;
                if self.columns.done == self.columns.of {
                    eprintln!(rt; "solving")?;
                }
                Ok(())
            }
            Some(0x14) => {
                self.solved = Instant::now(rt)?;
                eprintln!(rt; "solved")
            }
            Some(0x12) => self.rows.step(rt),
            _ => Ok(()),
        }
    }

    fn asking(&self) -> Duration {
        self.asked.duration_since(self.start)
    }

    fn solving(&self) -> Duration {
        self.solved.duration_since(self.asked)
    }

    fn checking(&self) -> Duration {
        self.taken.duration_since(self.solved)
    }

    fn publishing(&self) -> Duration {
        self.end.duration_since(self.taken)
    }
}

// A card under way, with its inverse memory.
#[derive(Drop)]
struct Card<'a> {
    heap: Global,
    key: SlotKey<'a>,
    blinding: StoredMatrix<'a>,
    inverse: Vec<u8>,
    stage: Stage,
}

impl<'a> Card<'a> {
    fn new(heap: Global, key: SlotKey<'a>, blinding: StoredMatrix<'a>) -> io::Result<Card<'a>> {
        let set = key.slot.set;
        Ok(Card {
            heap,
            key,
            blinding,
            inverse: vec![in heap; 0u8; set.rows() * set.bytes()]?,
            stage: begin(&key),
        })
    }

    fn call(self, store: &mut PackedKey<'_>, call: &Call<'_>) -> io::Result<(Card<'a>, Event)> {
        let Card {
            heap,
            key,
            blinding,
            mut inverse,
            stage,
        } = self;
        let Step { stage, event } = make(heap, &key, &blinding, &mut inverse, store, stage, call);
        let card = Card {
            heap,
            key,
            blinding,
            inverse,
            stage,
        };
        Ok((card, event?))
    }
}

// Our host with its tables and its frame.
#[derive(Drop)]
struct Line {
    host: Host,
    first: Vec<u8>,
    second: Vec<u8>,
    frame: Vec<u8>,
}

impl Line {
    fn new(heap: Global, host: Host, n: usize, l: usize) -> io::Result<Line> {
        Ok(Line {
            host,
            first: vec![in heap; 0u8; n.saturating_mul(n)]?,
            second: vec![in heap; 0u8; n.saturating_mul(n)]?,
            frame: vec![in heap; 0u8; l.saturating_add(3)]?,
        })
    }

    fn speak(&mut self) -> Result<Option<usize>, HostFault> {
        self.host
            .speak(&mut self.first, &mut self.second, &mut self.frame)
    }

    fn hear(&mut self, reply: &[u8]) -> Result<(), HostFault> {
        self.host.hear(&mut self.first, reply)
    }
}

// The refusal of a frame, and the reply, which is empty if the call was no frame.
fn answer_in(heap: Global, event: Event) -> (Option<SessionFault>, Vec<u8>) {
    match event {
        Event::Answered {
            answer,
            mut reply,
            ..
        } => {
            reply.truncate(answer.length);
            (answer.fault, reply)
        }
        _other => (None, Vec::new(heap)),
    }
}

// The host's part, to its last frame; none where a frame or a reply was refused, which is told.
fn send<'a>(
    rt: &HostRuntime,
    clock: &mut Clock,
    mut card: Card<'a>,
    mut line: Line,
    store: &mut PackedKey<'_>,
) -> io::Result<Option<Card<'a>>> {
    let (n, l) = (card.key.slot.set.rows(), card.key.slot.set.bytes());
    // the columns, the status, and the rows at most
    for _ in 0..2 * n + 2 {
        let length = match line.speak() {
            Ok(Some(length)) => length,
            Ok(None) => break,
            Err(fault) => return refused(rt, "the host", fault),
        };
        clock.sent(rt, &line.frame)?;
        let call = Call::Answer {
            frame: &line.frame[..length.min(line.frame.len())],
            working: 2 * l,
            reply: l + 3,
        };
        let (next, event) = card.call(store, &call)?;
        card = next;
        let (fault, reply) = answer_in(rt.alloc(), event);
        if let Some(fault) = fault {
            return refused(rt, "the card", fault);
        }
        if let Err(fault) = line.hear(&reply) {
            return refused(rt, "the host", fault);
        }
    }
    Ok(Some(card))
}

// The closing and all publishings; false where one was refused, which is told.
fn publish(rt: &HostRuntime, card: Card<'_>, store: &mut PackedKey<'_>) -> io::Result<bool> {
    let (l, k) = (card.key.slot.set.bytes(), card.key.slot.set.rest());
    let (mut card, closed) = card.call(store, &Call::Close)?;
    if let Event::Closed { fault: Some(fault) } = closed {
        eprintln!(rt; "the card: {}", Advice::from(fault))?;
        return Ok(false);
    }
    let mut progress = Progress::new("public columns", k);
    for _ in 0..k {
        let (next, event) = card.call(store, &Call::Publish { working: 2 * l })?;
        card = next;
        if let Event::Published {
            fault: Some(fault),
            ..
        } = event
        {
            eprintln!(rt; "the card: {}", Advice::from(fault))?;
            return Ok(false);
        }
        progress.step(rt)?;
    }
    Ok(true)
}

// Card and host to the last public column; the times, or none where something was refused, which is told.
fn converse(
    rt: &HostRuntime,
    set: &str,
    card: Card<'_>,
    store: &mut PackedKey<'_>,
) -> io::Result<Option<Clock>> {
    let (n, l) = (card.key.slot.set.rows(), card.key.slot.set.bytes());
    let host = match Host::new(set) {
        Ok(host) => host,
        Err(fault) => return refused(rt, set, fault),
    };
    let line = Line::new(rt.alloc(), host, n, l)?;
    let mut clock = Clock::new(rt, n)?;
    let Some(card) = send(rt, &mut clock, card, line, store)? else {
        return Ok(None);
    };
    clock.taken = Instant::now(rt)?;
    if !publish(rt, card, store)? {
        return Ok(None);
    }
    clock.end = Instant::now(rt)?;
    Ok(Some(clock))
}

// Tells whose refusal it is.
fn refused<F: Fault, T>(rt: &HostRuntime, who: &str, fault: F) -> io::Result<Option<T>> {
    eprintln!(rt; "{who}: {}", Advice::from(fault))?;
    Ok(None)
}

#[derive(Clone, Copy)]
pub(super) struct Make<'a> {
    pub(super) set: &'a str,
    pub(super) key: &'a str,
    pub(super) blinding: &'a str,
    pub(super) out: &'a str,
}

impl Make<'_> {
    fn tell(&self, rt: &HostRuntime, clock: &Clock, n: usize, k: usize) -> io::Result<()> {
        let bytes = n.saturating_mul(k.div_ceil(8));
        println!(rt;
            "{}: the public key of {}, {bytes} bytes",
            self.out, self.set
        )?;
        println!(rt;
            "  {n} columns answered in {} ms, solved in {} ms",
            clock.asking().as_millis(),
            clock.solving().as_millis()
        )?;
        println!(rt;
            "  {n} rows checked in {} ms, {k} columns published in {} ms",
            clock.checking().as_millis(),
            clock.publishing().as_millis()
        )
    }
}

impl Command for Make<'_> {
    fn run(&self, rt: &HostRuntime) -> io::Result<bool> {
        let heap = rt.alloc();
        let mut slot = KeySlot::new();
        if !rt.load_key(&mut slot, self.set, self.key)? {
            return Ok(false);
        }
        let (n, k) = (slot.set.rows(), slot.set.rest());
        let Some(rows) = rt.read_file("the blinding", self.blinding)? else {
            return Ok(false);
        };
        if let Err(fault) = StoredMatrix::check(n, &rows) {
            eprintln!(rt; "{}: {}", self.blinding, Advice::from(fault))?;
            return Ok(false);
        }
        let card = Card::new(heap, SlotKey { slot: &slot }, StoredMatrix::new(n, &rows))?;
        let mut memory = vec![in heap; 0u8; n * k.div_ceil(8)]?;
        let mut store = PackedKey::new(&mut memory, n, k);
        let Some(clock) = converse(rt, self.set, card, &mut store)? else {
            return Ok(false);
        };
        if !rt.write_file(self.out, &memory)? {
            return Ok(false);
        }
        self.tell(rt, &clock, n, k)?;
        Ok(true)
    }
}
