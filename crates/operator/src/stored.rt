// A matrix stored row after row, each in whole bytes, over lent memory.
ghost use Rattle.std.specs.Prelude.{◌≡◌, ◌*◌, ◌<◌, ◌≤◌, length};
ghost use Rattle.galois.specs.Bit.{bits as two};
ghost use Rattle.matrix.specs.Matrix.{apply, apply_row};
ghost use Rattle.bits.specs.Bits.{bytes_for, bits_of, of_rows, pad_bit, pack};
ghost use Rattle.operator.specs.Actions.{Stored, stored_check};

use super::fault::{MakeFault, OperatorFault};
use super::{LARGEST, Operator, check_lengths};
use bits::source::{BitSource, write_bits};
use bits::{bytes_for, clear_pads, dot, get_bit, xor_row};

#[derive(Clone, Copy)]
pub struct StoredMatrix<'a> {
    pub(crate) n: usize,
    pub(crate) rows: &'a [u8],
    ghost some: { (0 < n) × (n ≤ 1664) },
    ghost whole: { length rows.now ≡ n * bytes_for n },
}

impl<'a> StoredMatrix<'a> {
    pub fn check(n: usize, rows: &[u8]) -> Result<(), MakeFault>
        ensures { result ≡ stored_check n (length rows.now) }
    {
        if n == 0 || n > LARGEST {
            return Err(MakeFault::Size(n));
        }
        if rows.len() != n * bytes_for(n) {
            return Err(MakeFault::Memory(rows.len()));
        }
        Ok(())
    }

    // Made of what `check` refuses, it is the 1 by 1 zero matrix.
    pub fn new(n: usize, rows: &'a [u8]) -> StoredMatrix<'a>
        ensures { Stored n rows.now result.n (of_rows (bytes_for result.n) result.rows.now) }
    {
        match StoredMatrix::check(n, rows) {
            Ok(()) => StoredMatrix { n, rows },
            Err(_) => StoredMatrix { n: 1, rows: &[0] },
        }
    }
}

// The product of a stored matrix and a vector: bit i is the sum of row i where v has a 1.
#[derive(Clone, Copy)]
struct Product<'a, 'b> {
    m: StoredMatrix<'a>,
    v: &'b [u8],
}

impl BitSource for Product<'_, '_> {
    ghost vector = { λ s. pad_bit s.m.n (apply two s.m.n (of_rows (bytes_for s.m.n) s.m.rows.now) (bits_of s.v.now)) };

    fn bit(&self, i: usize) -> u8 {
        let n = self.m.n;
        if i >= n {
            return 0;
        }
        dot(self.m.rows, i * bytes_for(n), self.v, n)
    }
}

// Writes m v.
fn multiply_rows(m: StoredMatrix<'_>, v: &[u8], out: &mut [u8])
    requires { length out.old ≡ bytes_for m.n }
    ensures { out.new ≡ pack m.entry.n (apply two m.entry.n (of_rows (bytes_for m.entry.n) m.entry.rows.now) (bits_of v.now)) }
{
    write_bits(&Product { m, v }, m.n, out);
}

// Writes v m, the sum of the rows where v has a 1.
fn combine_rows(m: StoredMatrix<'_>, v: &[u8], out: &mut [u8])
    requires { length out.old ≡ bytes_for m.n }
    ensures { out.new ≡ pack m.entry.n (apply_row two m.entry.n (of_rows (bytes_for m.entry.n) m.entry.rows.now) (bits_of v.now)) }
{
    out.fill(0);
    for (i, row) in m.rows.chunks_exact(bytes_for(m.n)).enumerate() {
        if get_bit(v, i) == 1 {
            xor_row(row, 0, out);
        }
    }
    clear_pads(out, m.n);
}

impl Operator for StoredMatrix<'_> {
    ghost order = { λ s. s.n };

    ghost matrix = { λ s. of_rows (bytes_for s.n) s.rows.now };

    ghost bounded = { λ s. s.some };

    fn size(&self) -> usize {
        self.n
    }

    fn column_action(&self, v: &[u8], out: &mut [u8]) -> Result<(), OperatorFault> {
        check_lengths(self.n, v, out)?;
        multiply_rows(*self, v, out);
        Ok(())
    }

    fn row_action(&self, v: &[u8], out: &mut [u8]) -> Result<(), OperatorFault> {
        check_lengths(self.n, v, out)?;
        combine_rows(*self, v, out);
        Ok(())
    }
}
