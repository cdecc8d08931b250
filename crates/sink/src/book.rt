// The column book: column after column, ⌈size/8⌉ bytes each.
ghost use Rattle.std.specs.Prelude.{true};

use super::columns::{Columns, Layout, Shape};
use bits::{bytes_for, clear_pads};

// Rows that are columns.
#[derive(Clone, Copy)]
pub struct Book;

pub type ColumnBook<'a> = Columns<'a, Book>;

impl Layout for Book {
    ghost by_columns = { true };

    fn rows(_size: usize, limit: usize) -> usize {
        limit
    }

    fn width(size: usize, _limit: usize) -> usize {
        size
    }

    fn write(bytes: &mut [u8], shape: Shape, at: usize, column: &[u8]) {
        let w = bytes_for(shape.size);
        let place = &mut bytes[at * w..(at + 1) * w];
        place.copy_from_slice(column);
        clear_pads(place, shape.size);
    }

    fn read(bytes: &[u8], shape: Shape, at: usize, out: &mut [u8]) {
        let w = bytes_for(shape.size);
        out.copy_from_slice(&bytes[at * w..(at + 1) * w]);
        clear_pads(out, shape.size);
    }
}
