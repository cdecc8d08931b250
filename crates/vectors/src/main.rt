// The published vectors: for each real set the key is loaded, g is made anew and compared with the private key's,
// our host and the card make the public key, and every byte of it is compared with the published one. The blinding
// is made here, dense and the same in every run. Ends with failure where anything differs.
#![tactic(auto)]

use audit::check;
use audit::verdict::Verdict;
use bits::{bytes_for, xor_row};
use block::SlotKey;
use goppa::slot::KeySlot;
use maker::make;
use operator::stored::StoredMatrix;
use refusal::Fault;
use runs::calls::{Call, Event};
use runs::run;
use sink::key::PackedKey;
use std::alloc::{AllocError, Global};
use std::cmp::Ordering;
use std::process::ExitCode;
use std::{fmt, fs, io};

const SETS: [&str; 5] = [
    "mceliece348864",
    "mceliece460896",
    "mceliece6688128",
    "mceliece6960119",
    "mceliece8192128",
];

// A dense blinding with an inverse: a unit lower triangular matrix times a unit upper triangular one,
// the other entries drawn from a fixed sequence, so that every run has the same.

// The sequence x -> x ^ x << 13 ^ x >> 7 ^ x << 17 on 64 bits.
#[derive(Clone, Copy)]
struct Sequence {
    state: u64,
}

impl Sequence {
    fn next(&mut self) -> u64 {
        let a = self.state ^ (self.state << 13);
        let b = a ^ (a >> 7);
        self.state = b ^ (b << 17);
        self.state
    }

    fn byte(&mut self) -> u8 {
        self.next().to_le_bytes()[4]
    }
}

// Row i of the upper factor: 0 before place i, 1 there, drawn bits after it.
fn upper_row(
    heap: Global,
    n: usize,
    i: usize,
    drawn: &mut Sequence,
) -> Result<Vec<u8>, AllocError> {
    let unit = 1u8 << (i % 8);
    let mut row = vec![in heap; 0u8; bytes_for(n)]?;
    for (j, place) in row.iter_mut().enumerate() {
        let byte = drawn.byte();
        *place = match j.cmp(&(i / 8)) {
            Ordering::Less => 0,
            Ordering::Equal => byte & !(unit - 1) | unit,
            Ordering::Greater => byte,
        };
    }
    Ok(row)
}

// The rows of the product, one after another.
fn dense(heap: Global, n: usize) -> Result<Vec<u8>, AllocError> {
    let mut drawn = Sequence {
        state: 0x0123_4567_89ab_cdef,
    };
    let mut upper = Vec::new(heap);
    for i in 0..n {
        upper.push(upper_row(heap, n, i, &mut drawn)?)?;
    }
    let mut product = Vec::new(heap);
    for (i, last) in upper.iter().enumerate() {
        let mut row = last.clone()?;
        for above in upper.iter().take(i) {
            if drawn.next() & 1 == 1 {
                xor_row(above, 0, &mut row);
            }
        }
        product.extend_from_slice(&row)?;
    }
    Ok(product)
}

// How bytes that were made compare with those that are published.
#[derive(Clone, Copy, PartialEq, Eq)]
enum Compared {
    Same,
    // the first byte that differs, or the length of the shorter
    From(usize),
}

impl fmt::Display for Compared {
    fn fmt<W: fmt::Write>(&self, f: &mut fmt::Formatter<W>) -> fmt::Result {
        match self {
            Compared::Same => write!(f, "ok"),
            Compared::From(at) => write!(f, "DIFFERS from byte {at} on"),
        }
    }
}

fn compare(made: &[u8], published: &[u8]) -> Compared {
    let first = made.iter().zip(published).position(|(a, b)| a != b);
    match first {
        Some(at) => Compared::From(at),
        None if made.len() == published.len() => Compared::Same,
        None => Compared::From(made.len().min(published.len())),
    }
}

// Makes g from the published element of degree t, and compares it with the first t entries of the key.
fn remake(rt: &HostRuntime, name: &str, t: usize, key: &[u8]) -> anyhow::Result<bool> {
    let heap = rt.alloc();
    let beta = fs::read(rt, format!(in heap; "{name}-0.beta")?.as_str())?;
    let mut powers = vec![in heap; 0u16; t.saturating_mul(t)]?;
    let mut inverse = vec![in heap; 0u16; t.saturating_mul(t)]?;
    let mut goppa = vec![in heap; 0u8; t.saturating_mul(2)]?;
    if let Err(fault) = make(name, &beta, &mut powers, &mut inverse, &mut goppa) {
        println!(rt; "{name}: no g is made, refused by {}", fault.number())?;
        return Ok(false);
    }
    let expected = &key[..goppa.len().min(key.len())];
    let verdict = compare(&goppa, expected);
    println!(rt; "{name}: g of degree {t} made from its element {verdict}")?;
    Ok(verdict == Compared::Same)
}

// Frames answered with this kind of reply.
fn count_replies(events: &[Event], kind: u8) -> usize {
    events
        .iter()
        .filter(|event| match event {
            Event::Answered { reply, .. } => reply.first() == Some(&kind),
            _ => false,
        })
        .count()
}

fn count_published(events: &[Event]) -> usize {
    events
        .iter()
        .filter(|event| matches!(event, Event::Published { fault: None, .. }))
        .count()
}

// What comes after our host: the closing, and a publishing for each of k columns of n bits.
fn rest_of(heap: Global, n: usize, k: usize) -> Result<Vec<Call<'static>>, AllocError> {
    let mut calls = vec![in heap; Call::Close]?;
    for _ in 0..k {
        calls.push(Call::Publish {
            working: 2 * bytes_for(n),
        })?;
    }
    Ok(calls)
}

// Checks the published key, and the same with the last bit of its first row turned.
fn judge(
    rt: &HostRuntime,
    name: &str,
    key: &SlotKey<'_>,
    published: &mut [u8],
) -> io::Result<bool> {
    let heap = rt.alloc();
    let right = check(heap, key, published)? == Verdict::Right;
    let last = key.slot.set.rest().saturating_sub(1);
    if let Some(byte) = published.get_mut(last / 8) {
        *byte ^= 1 << (last % 8);
    }
    let turned = Verdict::Wrong {
        column: last,
        row: 0,
    };
    let wrong = check(heap, key, published)? == turned;
    let verdict = if right && wrong { "ok" } else { "DIFFERS" };
    println!(rt; "{name}: the published key found right, and wrong with a bit turned, {verdict}")?;
    Ok(right && wrong)
}

// Lets our host and the card make the public key, and compares it with the published one.
fn make_public(
    rt: &HostRuntime,
    name: &str,
    key: &SlotKey<'_>,
    published: &[u8],
) -> anyhow::Result<bool> {
    let heap = rt.alloc();
    let (n, k) = (key.slot.set.rows(), key.slot.set.rest());
    let rows = dense(heap, n)?;
    let blinding = StoredMatrix::new(n, &rows);
    let mut inverse = vec![in heap; 0u8; n.saturating_mul(bytes_for(n))]?;
    let mut memory = vec![in heap; 0u8; n.saturating_mul(bytes_for(k))]?;
    let mut store = PackedKey::new(&mut memory, n, k);
    let rest = rest_of(heap, n, k)?;
    println!(rt; "{name}: our host begins, {n} columns and {n} rows, then {k} public columns")?;
    let run = run(
        heap,
        key,
        &blinding,
        &mut inverse,
        &mut store,
        &[],
        Some(name),
        &rest,
    );
    println!(rt;
        "{name}: {} columns answered, {} rows taken",
        count_replies(&run.events, 0x21),
        count_replies(&run.events, 0x22)
    )?;
    let verdict = compare(store.bytes(), published);
    println!(rt;
        "{name}: {} columns published, public key of {} bytes {verdict}",
        count_published(&run.events),
        published.len()
    )?;
    Ok(verdict == Compared::Same)
}

fn run_set(rt: &HostRuntime, name: &str) -> anyhow::Result<bool> {
    let heap = rt.alloc();
    let bytes = fs::read(rt, format!(in heap; "{name}-0.key")?.as_str())?;
    let mut published = fs::read(rt, format!(in heap; "{name}-0.pub")?.as_str())?;
    let mut slot = KeySlot::new();
    if let Err(fault) = slot.load(name, &bytes) {
        println!(rt;
            "{name}: the key is refused by {} at place {}",
            fault.number(),
            fault.place()
        )?;
        return Ok(false);
    }
    println!(rt; "{name}: key loaded")?;
    let remade = remake(rt, name, slot.set.t, &bytes)?;
    let key = SlotKey { slot: &slot };
    let made = make_public(rt, name, &key, &published)?;
    let judged = judge(rt, name, &key, &mut published)?;
    Ok(remade && made && judged)
}

fn main(rt: HostRuntime) -> anyhow::Result<ExitCode> {
    let mut right = true;
    for name in SETS {
        right &= run_set(&rt, name)?;
    }
    Ok(if right {
        ExitCode::SUCCESS
    } else {
        ExitCode::FAILURE
    })
}
