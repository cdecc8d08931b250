// Makes sinks, fills them and reads them back, and tells what came, one line to a case.
// It promises nothing but text; what sinks do is fixed by the crate `sink`.
#![tactic(auto)]

use refusal::Fault;
use sink::Sink;
use sink::book::ColumnBook;
use sink::fault::MakeFault;
use sink::key::PackedKey;
use std::fmt::{self, Formatter};
use words::{Hex, Words};

// The public columns of practice12, one more, and the packed key.
const COLUMNS: [u8; 5] = [0xa3, 0x53, 0x36, 0x39, 0xff];

const PACKED: [u8; 8] = [0x0b, 0x07, 0x04, 0x08, 0x0e, 0x0d, 0x02, 0x01];

// Size, limit and bytes of memory that a sink is asked with.
type Asked = (usize, usize, usize);

const BOOKS: [Asked; 8] = [
    (8, 4, 4),
    (0, 4, 4),
    (1665, 0, 4),
    (8, 0, 4),
    (8, 8193, 4),
    (8, 4, 3),
    (8, 4, 5),
    (9, 4, 8),
];

const KEYS: [Asked; 8] = [
    (8, 4, 8),
    (0, 4, 8),
    (1665, 0, 8),
    (8, 0, 8),
    (8, 8193, 8),
    (8, 4, 7),
    (8, 4, 9),
    (4, 9, 8),
];

// All the lines.
#[derive(Clone, Copy)]
pub struct SinkLines;

impl fmt::Display for SinkLines {
    fn fmt<W: fmt::Write>(&self, f: &mut Formatter<W>) -> fmt::Result {
        book(f)?;
        packed(f)?;
        received(f)?;
        refused(f)
    }
}

fn book<W: fmt::Write>(f: &mut Formatter<W>) -> fmt::Result {
    writeln!(f, "A column book")?;
    ask(f, "book", BOOKS, ColumnBook::check)?;
    let mut memory = [0xffu8; 4];
    let mut store = ColumnBook::new(&mut memory, 8, 4);
    fill(f, &mut store)?;
    show(f, store.bytes())
}

fn packed<W: fmt::Write>(f: &mut Formatter<W>) -> fmt::Result {
    writeln!(f, "A packed key")?;
    ask(f, "packed key", KEYS, PackedKey::check)?;
    let mut memory = [0xffu8; 8];
    let mut store = PackedKey::new(&mut memory, 8, 4);
    fill(f, &mut store)?;
    show(f, store.bytes())
}

fn received<W: fmt::Write>(f: &mut Formatter<W>) -> fmt::Result {
    writeln!(f, "A packed key that was received")?;
    let mut memory = PACKED;
    let mut store = PackedKey::open(&mut memory, 8, 4);
    take(f, &mut store, 4, &[0xff])?;
    read_all(f, &store)?;
    show(f, store.bytes())
}

// Made from refused values: size 1 and limit 0, the memory as it was.
fn refused<W: fmt::Write>(f: &mut Formatter<W>) -> fmt::Result {
    writeln!(f, "A packed key made with size 0")?;
    let mut memory = PACKED;
    let mut store = PackedKey::new(&mut memory, 0, 4);
    take(f, &mut store, 0, &[1])?;
    show(f, store.bytes())
}

// What each check answers.
fn ask<W: fmt::Write, C: Fn(&[u8], usize, usize) -> Result<(), MakeFault>>(
    f: &mut Formatter<W>,
    what: &str,
    all: [Asked; 8],
    check: C,
) -> fmt::Result
    requires { C.IsAlwaysCallable check }
{
    let memory = [0u8; 9];
    for (size, limit, bytes) in all {
        // wrong lengths are the cases, so a case says how many bytes are lent
        if let Some(part) = memory.get(..bytes) {
            write!(f, "  {what} of size {size}, limit {limit}, {bytes} bytes: ")?;
            tell(f, &[], check(part, size, limit))?;
        }
    }
    Ok(())
}

// Takes four columns with wrong lengths before and a fifth column after, then reads.
fn fill<W: fmt::Write, S: Sink>(f: &mut Formatter<W>, sink: &mut S) -> fmt::Result {
    writeln!(f, "  reading before taking:")?;
    read(f, sink, 0, &mut [0])?;
    writeln!(f, "  columns of 2 bytes and of none:")?;
    take(f, sink, 0, &[0xa3, 0])?;
    take(f, sink, 0, &[])?;
    for (j, column) in COLUMNS.into_iter().enumerate() {
        take(f, sink, j, &[column])?;
    }
    writeln!(f, "  a column of 2 bytes when full:")?;
    take(f, sink, 5, &[0xa3, 0])?;
    read_all(f, sink)
}

// Columns 0 to 4, the last of which was not taken; then into wrong lengths.
fn read_all<W: fmt::Write, S: Sink>(f: &mut Formatter<W>, sink: &S) -> fmt::Result {
    for j in 0..5 {
        read(f, sink, j, &mut [0])?;
    }
    writeln!(f, "  into 2 bytes, then into none:")?;
    read(f, sink, 0, &mut [0; 2])?;
    read(f, sink, 4, &mut [])
}

fn take<W: fmt::Write, S: Sink>(
    f: &mut Formatter<W>,
    sink: &mut S,
    j: usize,
    column: &[u8],
) -> fmt::Result {
    write!(f, "  take column {j}: ")?;
    tell(f, column, sink.take(column))
}

fn read<W: fmt::Write, S: Sink>(
    f: &mut Formatter<W>,
    sink: &S,
    j: usize,
    out: &mut [u8],
) -> fmt::Result {
    write!(f, "  read column {j}: ")?;
    let answer = sink.read(j, out);
    tell(f, out, answer)
}

// The end of a line: ok with the bytes, if any, or the refusal.
fn tell<W: fmt::Write, F: Fault>(
    f: &mut Formatter<W>,
    bytes: &[u8],
    answer: Result<(), F>,
) -> fmt::Result {
    match answer {
        Err(fault) => writeln!(f, "{}", Words::from(fault)),
        Ok(()) if bytes.is_empty() => writeln!(f, "ok"),
        Ok(()) => writeln!(f, "ok {}", Hex { bytes }),
    }
}

fn show<W: fmt::Write>(f: &mut Formatter<W>, bytes: &[u8]) -> fmt::Result {
    writeln!(f, "  memory: {}", Hex { bytes })
}
