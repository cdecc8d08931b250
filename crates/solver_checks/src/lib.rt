// Examples of solving over bits and over GF(2^m), on lent slices.
// One call is proved for every field: what the tables then hold is the solver's answer.
// The tests run it on the practice block, on tables that are refused, and on unclean cells.
#![tactic(auto)]

ghost use Rattle.std.specs.Prelude.{◌≡◌, ◌<◌, length};
ghost use Rattle.solver.specs.Answers.{Answer};

use field::Field;
use solver::{SolveFault, Solved, Table};

// Solves the n by n table a, with b as the second.
pub fn solve<F: Field>(a: &mut [F::Cell], b: &mut [F::Cell], n: usize) -> Result<Solved, SolveFault>
    ensures { Answer F.arith F.WIDTH F.number n n a.old b.old a.new b.new result }
{
    let mut first = Table::<F>::new(a, n);
    let mut second = Table::<F>::new(b, n);
    first.solve(&mut second)
}

#[cfg(test)]
mod tests {
    use super::*;
    use field::{Bit, Gf4, Gf13};
    use refusal::Fault;
    use refusal::told::Layer;

    // Bit j of byte i.
    fn bit(bytes: &[u8; 8], i: usize, j: usize) -> u8
        requires { (i < 8) × (j < 8) }
    {
        (bytes[i] >> j) & 1
    }

    // Fills an 8 by 8 table from its columns; each cell has the bits above it set.
    fn fill(columns: &[u8; 8], cells: &mut [u8])
        requires { length cells.old ≡ 64 }
    {
        for (k, cell) in cells.iter_mut().enumerate() {
            *cell = bit(columns, k % 8, k / 8) | 0xFE;
        }
    }

    #[test]
    fn inverts_the_practice_block(rt: HostRuntime) {
        let columns = [0x0F, 0xFF, 0x63, 0x53, 0x68, 0xE8, 0xC2, 0xE2];
        let rows = [0x4E, 0x4A, 0x5F, 0x5A, 0xC5, 0xC9, 0x3A, 0x39];
        let mut a = [0u8; 64];
        let mut b = [0xFFu8; 64];
        fill(&columns, &mut a);
        assert!(rt; solve::<Bit>(&mut a, &mut b, 8) == Ok(Solved::Inverse));
        for (k, cell) in b.iter().enumerate() {
            assert!(rt; *cell == bit(&rows, k / 8, k % 8));
        }
    }

    #[test]
    fn refuses_other_sizes_and_changes_nothing(rt: HostRuntime) {
        for size in [0, 1, 3, 1665] {
            let mut a = [7u8; 4];
            let mut b = [9u8; 4];
            let fault = SolveFault::Size(size);
            assert!(rt; solve::<Bit>(&mut a, &mut b, size) == Err(fault));
            assert!(rt; fault.number() == 29);
            assert!(rt; usize::from(fault.place()) == size);
            assert!(rt; fault.layer() == Layer::Solving);
            assert!(rt; a.iter().all(|cell| *cell == 7));
            assert!(rt; b.iter().all(|cell| *cell == 9));
        }
    }

    #[test]
    fn refuses_tables_one_cell_short_or_long(rt: HostRuntime) {
        // wrong lengths are the cases
        for length in [3, 5] {
            let mut a = [1u8; 5];
            let mut b = [1u8; 4];
            assert!(rt; solve::<Bit>(&mut a[..length], &mut b, 2) == Err(SolveFault::Size(2)));
            assert!(rt; solve::<Bit>(&mut b, &mut a[..length], 2) == Err(SolveFault::Size(2)));
            assert!(rt; a[0] == 1 && a[3] == 1 && b[0] == 1 && b[3] == 1);
        }
    }

    #[test]
    fn reads_cells_full_of_ones_as_one(rt: HostRuntime) {
        let mut one = [0xFFu8; 1];
        let mut inverse = [0xFFu8; 1];
        assert!(rt; solve::<Bit>(&mut one, &mut inverse, 1) == Ok(Solved::Inverse));
        assert!(rt; inverse[0] == 1);
        let mut ones = [0xFFu8; 4];
        let mut combination = [0xFFu8; 4];
        assert!(rt; solve::<Bit>(&mut ones, &mut combination, 2) == Ok(Solved::Dependent(1)));
        assert!(rt; combination[2] == 1 && combination[3] == 1);
    }

    #[test]
    fn finds_zero_dependent(rt: HostRuntime) {
        let mut zero = [0xFFF0u16; 1];
        let mut combination = [0u16; 1];
        assert!(rt; solve::<Gf4>(&mut zero, &mut combination, 1) == Ok(Solved::Dependent(0)));
        assert!(rt; combination[0] == 1);
    }

    // The rows (z, 1) and (0, 1), the first with bits above its element; the inverse of z is 0x100D.
    #[test]
    fn inverts_over_thirteen_bits(rt: HostRuntime) {
        let mut a = [0xE002u16, 1, 0, 1];
        let mut b = [0u16; 4];
        assert!(rt; solve::<Gf13>(&mut a, &mut b, 2) == Ok(Solved::Inverse));
        assert!(rt; b == [0x100D, 0x100D, 0, 1]);
    }
}
