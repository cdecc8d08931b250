// The worked examples of docs/PROTOCOL.md, run line by line: what a card answers, what loading refuses, and what is
// found of bytes that are to be a public key. Ends with failure where one differs.
#![tactic(auto)]

mod tables;

use audit::check;
use block::SlotKey;
use goppa::slot::KeySlot;
use key::Key;
use operator::stored::StoredMatrix;
use refusal::Fault;
use session::state::Open;
use sink::key::PackedKey;
use std::alloc::Global;
use std::process::ExitCode;
use tables::{FINDINGS, KEY12, LOADINGS, Loading, SESSIONS, Session};

// The bytes of a text of hexadecimal digits.
fn bytes_of(heap: Global, text: &str) -> anyhow::Result<Vec<u8>> {
    let mut bytes = Vec::new(heap);
    for word in text.split_whitespace() {
        bytes.push(u8::from_str_radix(word, 16)?)?;
    }
    Ok(bytes)
}

// Whether the columns of the check matrix are those stated, if they are.
fn has_columns(heap: Global, key: &SlotKey<'_>, stated: &str) -> anyhow::Result<bool> {
    let mut columns = Vec::new(heap);
    for j in 0..key.slot.set.n {
        let mut column = vec![in heap; 0u8; key.slot.set.bytes()]?;
        if key.column(j, &mut column).is_err() {
            return Ok(false);
        }
        columns.extend_from_slice(&column)?;
    }
    Ok(stated.is_empty() || columns == bytes_of(heap, stated)?)
}

// Whether what is published after the last frame is the key stated; nothing, where the session is not complete.
fn has_key(
    heap: Global,
    key: &SlotKey<'_>,
    open: Open,
    inverse: &[u8],
    stated: &str,
) -> anyhow::Result<bool> {
    let (n, k) = (key.slot.set.rows(), key.slot.set.rest());
    let mut ready = match open.close() {
        Ok(ready) => ready,
        Err(_) => return Ok(stated.is_empty()),
    };
    let mut memory = vec![in heap; 0u8; n.saturating_mul(k.div_ceil(8))]?;
    let mut store = PackedKey::new(&mut memory, n, k);
    for _ in 0..k {
        let mut working = vec![in heap; 0u8; key.slot.set.bytes().saturating_mul(2)]?;
        let _ = ready.publish(key, inverse, &mut working, &mut store);
    }
    let stated = bytes_of(heap, stated)?;
    Ok(store.bytes() == stated.as_slice())
}

// True where every line comes as stated.
fn run_session(rt: &HostRuntime, session: &Session) -> anyhow::Result<bool> {
    let heap = rt.alloc();
    let mut slot = KeySlot::new();
    if slot
        .load(session.set, &bytes_of(heap, session.key)?)
        .is_err()
    {
        println!(rt; "{}: the key is refused", session.what)?;
        return Ok(false);
    }
    let key = SlotKey { slot: &slot };
    let (n, l) = (slot.set.rows(), slot.set.bytes());
    let rows = bytes_of(heap, session.blinding)?;
    let blinding = StoredMatrix::new(n, &rows);
    let mut open = Open::new(&key);
    let mut inverse = vec![in heap; 0u8; n.saturating_mul(l)]?;
    let mut right = 0usize;
    for (frame, stated) in session.lines {
        let frame = bytes_of(heap, frame)?;
        let mut working = vec![in heap; 0u8; l.saturating_mul(2)]?;
        let mut reply = vec![in heap; 0u8; l.saturating_add(3)]?;
        let answer = open.answer(
            &key,
            &blinding,
            &mut inverse,
            &mut working,
            &frame,
            &mut reply,
        );
        reply.truncate(answer.length);
        if reply == bytes_of(heap, stated)? {
            right = right.saturating_add(1);
        }
    }
    let lines = session.lines.len();
    let as_stated = inverse == bytes_of(heap, session.inverse)?
        && has_columns(heap, &key, session.checks)?
        && has_key(heap, &key, open, &inverse, session.public)?;
    println!(rt;
        "{}: {right} of {lines} frames answered as stated, check matrix and memories {}",
        session.what,
        if as_stated { "too" } else { "DIFFER" }
    )?;
    Ok(right == lines && as_stated)
}

impl Loading {
    fn holds(&self, heap: Global, slot: &mut KeySlot) -> anyhow::Result<bool> {
        let mut key = bytes_of(heap, KEY12)?;
        if let Some(byte) = key.as_mut_slice().get_mut(self.at) {
            *byte = self.value;
        }
        key.truncate(self.length);
        let (number, place) = match slot.load("practice12", &key) {
            Ok(()) => (0, 0),
            Err(fault) => (fault.number(), fault.place()),
        };
        Ok(number == self.number && place == self.place)
    }
}

fn run_loadings(rt: &HostRuntime) -> anyhow::Result<bool> {
    let mut slot = KeySlot::new();
    let mut right = 0usize;
    for loading in &LOADINGS {
        if loading.holds(rt.alloc(), &mut slot)? {
            right = right.saturating_add(1);
        }
    }
    println!(rt;
        "practice12: {right} of {} keys loaded or refused as stated",
        LOADINGS.len()
    )?;
    Ok(right == LOADINGS.len())
}

fn run_findings(rt: &HostRuntime) -> anyhow::Result<bool> {
    let slot = KeySlot::new();
    let key = SlotKey { slot: &slot };
    let mut right = 0usize;
    for finding in &FINDINGS {
        if check(rt.alloc(), &key, finding.bytes)? == finding.verdict {
            right = right.saturating_add(1);
        }
    }
    println!(rt;
        "practice12: {right} of {} public keys found right or wrong as stated",
        FINDINGS.len()
    )?;
    Ok(right == FINDINGS.len())
}

fn main(rt: HostRuntime) -> anyhow::Result<ExitCode> {
    let mut right = true;
    for session in &SESSIONS {
        right &= run_session(&rt, session)?;
    }
    right &= run_loadings(&rt)?;
    right &= run_findings(&rt)?;
    Ok(if right {
        ExitCode::SUCCESS
    } else {
        ExitCode::FAILURE
    })
}
