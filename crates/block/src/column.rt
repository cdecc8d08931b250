// Columns of the check matrix, and their sums: t words of m bits, written one after another.
ghost use Rattle.std.specs.Prelude.{◌≡◌, ℕ, ◌*◌, ◌/◌, ◌%◌, ◌<◌, length, bit_xor, slice_index};
ghost use Rattle.galois.specs.Bit.{bits as two};
ghost use Rattle.bits.specs.Bits.{bytes_for};
ghost use Rattle.operator.specs.Actions.{ColumnAction};
ghost use Rattle.key.specs.Columns.{ColumnGiven};
ghost use Rattle.goppa.specs.Loading.{check_matrix};
ghost use Rattle.block.specs.Lanes.{scaled, stacked};
ghost use Rattle.block.specs.Slots.{rows_of, sizes_of, column_word};

use super::LentWords;
use bits::source::{BitSource, write_bits};
use bits::{bytes_for, get_bit};
use field::Field;
use goppa::over_field;
use goppa::slot::KeySlot;
use key::fault::ColumnFault;
use operator::check_lengths;
use operator::fault::OperatorFault;
use params::set::ParameterSet;

// Adds y, x y, x^2 y, .. to the words.
fn add_powers<F: Field>(x: u16, y: u16, words: &mut [u16])
    ensures { (i : ℕ) → i < length words.old → slice_index words.new i ≡ bit_xor (slice_index words.old i) (scaled F.WIDTH F.REDUCER x y i) }
{
    let mut power = y;
    for word in words.iter_mut() {
        *word ^= power;
        power = F::mul(x, power);
    }
}

// The same, over the field of the set.
fn add_powers_in(set: ParameterSet, x: u16, y: u16, words: &mut [u16])
    ensures { (i : ℕ) → i < length words.old → slice_index words.new i ≡ bit_xor (slice_index words.old i) (scaled set.m set.f x y i) }
{
    over_field!(set, add_powers(x, y, words))
}

impl LentWords<'_, '_> {
    // Adds the words of column j.
    fn add_column(&mut self, j: usize)
        requires { j < self.old.slot.now.set.n }
        ensures slot { self.new.slot.now ≡ self.old.slot.now }
        ensures words { (i : ℕ) → i < length self.old.words.now → slice_index self.new.words.now i ≡ bit_xor (slice_index self.old.words.now i) (column_word self.old.slot.now j i) }
    {
        let slot = self.slot;
        add_powers_in(slot.set, slot.support[j], slot.inverses[j], self.words)
    }
}

// The bits of the words, m of each, one word after another.
impl BitSource for LentWords<'_, '_> {
    ghost vector = { λ s. stacked s.slot.now.set.m s.words.now };

    fn bit(&self, i: usize) -> u8 {
        // a u32 in the set, as Rust counts bits (u16::BITS)
        let m = self.slot.set.m as usize;
        let at = i / m;
        if at < self.words.len() {
            u8::from((self.words[at] >> (i % m)) % 2 == 1)
        } else {
            0
        }
    }
}

// Of one shape with row_action: two actions of one trait, each with its own work.
pub(crate) fn column_action(slot: &KeySlot, v: &[u8], out: &mut [u8]) -> Result<(), OperatorFault>
    ensures { ColumnAction (rows_of slot.now) (check_matrix slot.now) v.now out.old out.new result }
{
    check_lengths(slot.set.rows(), v, out)?;
    let mut memory = [0u16; 128];
    let mut sum = LentWords::new(slot, &mut memory[..slot.set.t]);
    // by number: a vector's bits are no slice
    for j in 0..slot.set.rows() {
        if get_bit(v, j) == 1 {
            sum.add_column(j);
        }
    }
    write_bits(&sum, slot.set.rows(), out);
    Ok(())
}

pub(crate) fn column(slot: &KeySlot, j: usize, out: &mut [u8]) -> Result<(), ColumnFault>
    ensures { ColumnGiven (sizes_of slot.now) (check_matrix slot.now) j out.old out.new result }
{
    let set = slot.set;
    if out.len() != bytes_for(set.rows()) {
        return Err(ColumnFault::Length(out.len()));
    }
    if j >= set.n {
        return Err(ColumnFault::Index(j));
    }
    let mut memory = [0u16; 128];
    let mut column = LentWords::new(slot, &mut memory[..set.t]);
    column.add_column(j);
    write_bits(&column, set.rows(), out);
    Ok(())
}
