// Loads keys into the key slot, whole and damaged ones, and tells what came, one line to a case.
#![tactic(auto)]

mod cases;

use block::SlotKey;
use cases::{CASES, Case, KEY12, KEY20, KEYS, Published};
use goppa::slot::KeySlot;
use key::Key;
use std::{fs, io};
use words::{Hex, Words};

// Loads a key, and tells the refusal, or ok.
fn load(
    rt: &HostRuntime,
    slot: &mut KeySlot,
    what: &str,
    name: &str,
    key: &[u8],
) -> io::Result<()> {
    match slot.load(name, key) {
        Ok(()) => println!(rt; "  {what}: ok"),
        Err(fault) => println!(rt; "  {what}: {}", Words::from(fault)),
    }
}

fn try_case(rt: &HostRuntime, slot: &mut KeySlot, case: Case) -> io::Result<()> {
    let (what, name, length, changes) = case;
    let mut bytes = KEY12;
    for (at, value) in changes {
        if let Some(byte) = bytes.get_mut(*at) {
            *byte = *value;
        }
    }
    // wrong lengths are the cases, so a case says how many bytes are loaded
    match bytes.get(..length) {
        Some(key) => load(rt, slot, what, name, key),
        None => Ok(()),
    }
}

// Column j, or why there is none; as in walkthrough, which is read alone.
fn show_column(rt: &HostRuntime, key: &SlotKey<'_>, j: usize, out: &mut [u8]) -> io::Result<()> {
    match key.column(j, out) {
        Ok(()) => {
            let column = Hex { bytes: out };
            println!(rt; "    column {j}: ok {column}")
        }
        Err(fault) => {
            let length = out.len();
            println!(rt;
                "    column {j} into {length} bytes: {}",
                Words::from(fault)
            )
        }
    }
}

// All columns of the slot's check matrix, then one too many, then results of wrong lengths.
fn show_columns(rt: &HostRuntime, slot: &KeySlot) -> anyhow::Result<()> {
    let key = SlotKey { slot };
    let (n, width) = (slot.set.n, slot.set.bytes());
    let mut out = vec![in rt.alloc(); 0u8; width]?;
    println!(rt; "  the columns of H:")?;
    for j in 0..=n {
        show_column(rt, &key, j, &mut out)?;
    }
    for length in [0, 3] {
        let mut wrong = vec![in rt.alloc(); 0u8; length]?;
        show_column(rt, &key, n, &mut wrong)?;
    }
    Ok(())
}

// The practice sets: every refusal of loading, and the columns of the check matrix.
fn load_practice(rt: &HostRuntime, slot: &mut KeySlot) -> anyhow::Result<()> {
    println!(rt; "practice12")?;
    for case in CASES {
        try_case(rt, slot, case)?;
    }
    println!(rt; "  the slot still holds the 28 bytes")?;
    show_columns(rt, slot)?;
    println!(rt; "practice20")?;
    load(rt, slot, "46 bytes", "practice20", &KEY20)?;
    show_columns(rt, slot)?;
    load(rt, slot, "45 bytes", "practice20", &KEY20[..45])?;
    load(
        rt,
        slot,
        "the same bytes as practice12",
        "practice12",
        &KEY20,
    )?;
    println!(rt; "  the slot still holds the 46 bytes")?;
    show_columns(rt, slot)
}

// A published key, and the slot that it is loaded into. A change is made in the key's own bytes, and
// taken back, so that what is loaded has the length of the file, whatever that is.
#[derive(Drop)]
struct Bench<'a> {
    rt: &'a HostRuntime,
    slot: &'a mut KeySlot,
    name: &'static str,
    key: Vec<u8>,
}

impl Bench<'_> {
    fn load(&mut self, what: &str) -> io::Result<()> {
        load(self.rt, self.slot, what, self.name, &self.key)
    }

    // One byte, 0 where there is none.
    fn byte(&self, place: usize) -> u8 {
        self.key.get(place).copied().unwrap_or(0)
    }

    // The two bytes of an entry.
    fn entry(&self, at: usize) -> [u8; 2] {
        let low = at.saturating_mul(2);
        [self.byte(low), self.byte(low.saturating_add(1))]
    }

    // Overwrites an entry, as far as its bytes are there.
    fn put(&mut self, at: usize, entry: [u8; 2]) {
        for (place, byte) in (at.saturating_mul(2)..).zip(entry) {
            if let Some(b) = self.key.get_mut(place) {
                *b = byte;
            }
        }
    }

    // Loads the key with one entry changed.
    fn load_with(&mut self, what: &str, at: usize, entry: [u8; 2]) -> io::Result<()> {
        let was = self.entry(at);
        self.put(at, entry);
        self.load(what)?;
        self.put(at, was);
        Ok(())
    }

    // The high byte of an entry set to FF.
    fn enlarge(&mut self, at: usize) -> anyhow::Result<()> {
        let [low, _] = self.entry(at);
        let what = format!(in self.rt.alloc(); "the high byte of entry {at} is FF")?;
        self.load_with(what.as_str(), at, [low, 0xff])?;
        Ok(())
    }

    // An entry overwritten by the one before.
    fn repeat(&mut self, at: usize) -> anyhow::Result<()> {
        let before = at.saturating_sub(1);
        let what = format!(in self.rt.alloc(); "entry {at} is entry {before}")?;
        self.load_with(what.as_str(), at, self.entry(before))?;
        Ok(())
    }

    // All coefficients 0, and they stay so: g = x^t, with the one root 0.
    fn power(&mut self, t: usize) -> anyhow::Result<()> {
        let heap = self.rt.alloc();
        for at in 0..t {
            self.put(at, [0, 0]);
        }
        let (entries, _) = self.key.as_slice().as_chunks::<2>();
        let zero = entries
            .iter()
            .enumerate()
            .skip(t)
            .find(|(_, entry)| **entry == [0, 0]);
        let what = match zero {
            Some((at, _)) => format!(in heap; "g = x^{t}, entry {at} is 0")?,
            None => format!(in heap; "g = x^{t}, no support entry is 0")?,
        };
        self.load(what.as_str())?;
        Ok(())
    }
}

fn try_key(rt: &HostRuntime, slot: &mut KeySlot, one: Published) -> anyhow::Result<()> {
    let name = one.name;
    let key = fs::read(rt, format!(in rt.alloc(); "{name}-0.key")?.as_str())?;
    println!(rt; "{name}")?;
    load(rt, slot, "whole", name, &key)?;
    let less = key.len().saturating_sub(1);
    load(rt, slot, "one byte less", name, &key[..less])?;
    let mut bench = Bench {
        rt,
        slot,
        name,
        key,
    };
    bench.enlarge(one.large)?;
    bench.repeat(one.copied)?;
    bench.load("whole again")?;
    bench.power(one.t)
}

fn main(rt: HostRuntime) -> anyhow::Result<()> {
    let mut slot = KeySlot::new();
    load_practice(&rt, &mut slot)?;
    for one in KEYS {
        try_key(&rt, &mut slot, one)?;
    }
    Ok(())
}
