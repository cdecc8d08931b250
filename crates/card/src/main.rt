// A card on a pipe: it reads frames from standard input and writes each reply to standard output as
// soon as its frame is complete. At the end of a complete session it writes the packed public key.
// The key is that of a new slot (practice12), the blinding a stored matrix.
#![tactic(auto)]

ghost use Rattle.std.specs.Prelude.{◌≤◌, length, IfOk};

use block::SlotKey;
use goppa::slot::KeySlot;
use operator::stored::StoredMatrix;
use session::frame::length_for;
use session::state::{Open, Ready};
use sink::Sink;
use sink::key::PackedKey;
use std::io::{BufReader, Read, Write};
use std::{io, slice};

// practice12 has 8 rows, so a vector is one byte, and 4 public columns.
const ROWS: usize = 8;

const REST: usize = 4;

// as in walkthrough: a program is read alone, and shares no crate of values with another
const BLINDING: [u8; 8] = [0x03, 0x02, 0x04, 0x08, 0x10, 0x20, 0x40, 0x80];

// The longest frame: kind, index and one byte of row.
const LONGEST: usize = 4;

// Fills a part of a frame and tells how many bytes came: fewer where the input ended.
fn fill<R: Read>(input: &mut R, part: &mut [u8]) -> io::Result<usize>
    ensures { IfOk result (λ came. came ≤ length part.old) }
{
    for (at, place) in part.iter_mut().enumerate() {
        if input.read(slice::from_mut(place))? == 0 {
            return Ok(at);
        }
    }
    Ok(part.len())
}

// Reads one frame: less than the kind asks for where the input ended in it, none where there was no
// more.
fn fetch<'a, R: Read>(
    input: &mut R,
    memory: &'a mut [u8; LONGEST],
) -> io::Result<Option<&'a [u8]>> {
    if fill(input, &mut memory[..1])? == 0 {
        return Ok(None);
    }
    // from 1 to LONGEST for every kind; the clamp tells the proof so
    let whole = length_for(memory[0], ROWS).clamp(1, LONGEST);
    let came = fill(input, &mut memory[1..whole])?;
    Ok(Some(&memory[..1 + came]))
}

// Answers frames until the input ends.
fn serve<R: Read, W: Write>(
    input: &mut R,
    output: &mut W,
    card: &SlotKey<'_>,
    session: &mut Open,
    inverse: &mut [u8],
) -> io::Result<()> {
    let blinding = StoredMatrix::new(ROWS, &BLINDING);
    // nothing says that an input ends, so the loop counts
    for _ in 0..u64::MAX {
        let mut memory = [0u8; LONGEST];
        let Some(frame) = fetch(input, &mut memory)? else {
            return Ok(());
        };
        let mut working = [0u8; 2];
        let mut reply = [0u8; 4];
        let answer = session.answer(card, &blinding, inverse, &mut working, frame, &mut reply);
        output.write_all(&reply[..answer.length])?;
        output.flush()?;
    }
    Ok(())
}

// Publishes all columns into a packed key and writes it.
fn publish<W: Write>(
    output: &mut W,
    card: &SlotKey<'_>,
    mut ready: Ready,
    inverse: &[u8],
) -> io::Result<()> {
    let mut memory = [0u8; ROWS];
    let mut key = PackedKey::new(&mut memory, ROWS, REST);
    for _ in 0..REST {
        let mut working = [0u8; 2];
        let _ = ready.publish(card, inverse, &mut working, &mut key);
    }
    output.write_all(key.bytes())?;
    output.flush()
}

fn main(rt: HostRuntime) -> io::Result<()> {
    let slot = KeySlot::new();
    let card = SlotKey { slot: &slot };
    let mut session = Open::new(&card);
    let mut inverse = [0u8; 8];
    let mut input = BufReader::new(rt.alloc(), rt.stdin())?;
    let mut output = rt.stdout();
    serve(&mut input, &mut output, &card, &mut session, &mut inverse)?;
    match session.close() {
        Ok(ready) => publish(&mut output, &card, ready, &inverse),
        Err(_) => Ok(()),
    }
}
