// Frames: one byte of kind, and a body whose length the kind fixes.
ghost use Rattle.std.specs.Prelude.{◌≡◌};
ghost use Rattle.bits.specs.Bits.{bytes_for};
ghost use Rattle.session.specs.Table.{frame_length};
ghost use Rattle.session.specs.Frames.{Reads, Kinded, word_of};

use crate::fault::SessionFault;
use bits::bytes_for;

// A frame; its body is a part of the caller's bytes.
#[derive(Drop)]
pub enum Frame<'a> {
    Column { index: usize },
    Row { index: usize, body: &'a [u8] },
    Combination { body: &'a [u8] },
    Status,
}

// The kinds of frames. Their numbers stand in `try_from` alone.
#[derive(Clone, Copy)]
enum Kind {
    Column,
    Row,
    Combination,
    Status,
}

impl TryFrom<u8> for Kind {
    type Error = SessionFault;

    ghost try_from_gives = { Kinded };

    fn try_from(number: u8) -> Result<Kind, SessionFault> {
        match number {
            0x11 => Ok(Kind::Column),
            0x12 => Ok(Kind::Row),
            0x13 => Ok(Kind::Combination),
            0x14 => Ok(Kind::Status),
            _ => Err(SessionFault::Kind(number)),
        }
    }
}

// The length of a whole frame of a kind, for vectors of n bits. An unknown kind is a frame of its own
// one byte, which is refused: so there is always a length, and no Option.
pub fn length_for(kind: u8, n: usize) -> usize
    ensures { result ≡ frame_length (bytes_for n) kind }
{
    match Kind::try_from(kind) {
        Ok(Kind::Column) => 3,
        Ok(Kind::Row) => bytes_for(n) + 3,
        Ok(Kind::Combination) => bytes_for(n) + 1,
        Ok(Kind::Status) | Err(_) => 1,
    }
}

fn index_of(low: u8, high: u8) -> usize
    ensures { result ≡ word_of low high }
{
    usize::from(u16::from_le_bytes([low, high]))
}

// Reads a frame, for vectors of n bits. An empty one is refused as of kind 0, which the table of refusals
// tells, so the fault has no case of its own for it.
pub fn read<'a>(frame: &'a [u8], n: usize) -> Result<Frame<'a>, SessionFault>
    ensures { Reads (bytes_for n) frame.now result }
{
    let [number, rest @ ..] = frame else {
        return Err(SessionFault::Kind(0));
    };
    let l = bytes_for(n);
    match (Kind::try_from(*number)?, rest) {
        (Kind::Column, [low, high]) => Ok(Frame::Column {
            index: index_of(*low, *high),
        }),
        (Kind::Row, [low, high, body @ ..]) if body.len() == l => Ok(Frame::Row {
            index: index_of(*low, *high),
            body,
        }),
        (Kind::Combination, body) if body.len() == l => Ok(Frame::Combination { body }),
        (Kind::Status, []) => Ok(Frame::Status),
        _ => Err(SessionFault::Length(frame.len())),
    }
}
