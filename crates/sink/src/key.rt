// The packed key: row after row, ⌈limit/8⌉ bytes each, as public keys are laid out.
ghost use Rattle.std.specs.Prelude.{◌≡◌, ℕ, ◌<◌, ◌≤◌, false, length, if◌then◌else◌, nat_eq, nat_lt};
ghost use Rattle.bits.specs.Bits.{bit_of};
ghost use Rattle.sink.specs.Layout.{wanted};
ghost use Rattle.sink.specs.Store.{key_matrix};

use super::columns::{Columns, Layout, Shape};
use bits::source::{BitSource, write_bits};
use bits::{bit_of, bytes_for, get_bit};

// Rows that have one bit of every column.
#[derive(Clone, Copy)]
pub struct Packed;

pub type PackedKey<'a> = Columns<'a, Packed>;

// x with its bit b changed to `bit`.
fn put_bit(x: u8, b: usize, bit: u8) -> u8
    requires place { b < 8 }
    requires value { bit < 2 }
    ensures { (k : ℕ) → k < 8 → bit_of result k ≡ (if nat_eq b k then bit else bit_of x k) }
{
    let d = bit_of(x, b) ^ bit;
    x ^ (d << b)
}

// Column `at` of a packed key.
#[derive(Clone, Copy)]
struct KeyColumn<'b> {
    bytes: &'b [u8],
    shape: Shape,
    at: usize,
    ghost room: { wanted false shape.size shape.limit ≤ length bytes.now },
    ghost place: { at < shape.limit },
}

impl BitSource for KeyColumn<'_> {
    ghost vector = { λ s i. (if nat_lt i s.shape.size then key_matrix s.shape.limit s.bytes.now i s.at else 0) };

    fn bit(&self, i: usize) -> u8 {
        if i < self.shape.size {
            let w = bytes_for(self.shape.limit);
            bit_of(self.bytes[i * w + self.at / 8], self.at % 8)
        } else {
            0
        }
    }
}

impl Layout for Packed {
    ghost by_columns = { false };

    fn rows(size: usize, _limit: usize) -> usize {
        size
    }

    fn width(_size: usize, limit: usize) -> usize {
        limit
    }

    fn write(bytes: &mut [u8], shape: Shape, at: usize, column: &[u8]) {
        let w = bytes_for(shape.limit);
        // by index: after a loop over `chunks_mut` the proof knows the memory's length alone
        for i in 0..shape.size {
            let byte = &mut bytes[i * w + at / 8];
            *byte = put_bit(*byte, at % 8, get_bit(column, i));
        }
    }

    fn read(bytes: &[u8], shape: Shape, at: usize, out: &mut [u8]) {
        let column = KeyColumn { bytes, shape, at };
        write_bits(&column, shape.size, out);
    }
}
