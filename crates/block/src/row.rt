// A vector times the check block. The vector is taken apart once into t words of m bits; an entry of
// the product is then the parity of the words against the elements a^i / g(a) of a column. Many
// columns are taken at once, so that their products are computed side by side.
ghost use Rattle.std.specs.Prelude.{◌≡◌, ℕ, ◌+◌, ◌-◌, ◌*◌, ◌/◌, ◌^◌, ◌<◌, ◌≤◌, min, length, bit_and, bit_xor, slice_index};
ghost use Rattle.galois.specs.Gf.{times};
ghost use Rattle.galois.specs.Bit.{bits as two};
ghost use Rattle.bits.specs.Bits.{bytes_for, pack};
ghost use Rattle.operator.specs.Actions.{RowAction};
ghost use Rattle.goppa.specs.Loading.{check_matrix};
ghost use Rattle.guard.specs.Zero.{AllZero};
ghost use Rattle.block.specs.Lanes.{crossed, word_of, parity_of};
ghost use Rattle.block.specs.Slots.{rows_of, column_crossed};

use super::LentWords;
use bits::source::{BitSource, write_bits};
use bits::{bytes_for, get_bit, parity};
use field::Field;
use goppa::over_field;
use goppa::slot::KeySlot;
use operator::check_lengths;
use operator::fault::OperatorFault;
use params::set::ParameterSet;

// How many columns are taken at once.
const LANES: usize = 32;

// Word i of a vector, taken apart under the set.
fn word_at(v: &[u8], set: ParameterSet, i: usize) -> u16
    requires { i < set.t }
    ensures { result ≡ word_of set.m v.now i }
{
    // a u32 in the set, as Rust counts bits (u16::BITS)
    let m = set.m as usize;
    let at = i * m;
    let mut word: u16 = 0;
    // by number: a vector's bits are no slice
    for b in (0..m).rev() {
        word = 2 * word + u16::from(get_bit(v, at + b));
    }
    word
}

// At most thirty-two columns, from `at` on.
#[derive(Clone, Copy)]
struct Block {
    at: usize,
    count: usize,
    ghost within: { at ≤ 1664 },
    ghost few: { count ≤ 32 },
}

// Columns side by side: the element x of each, the multiple of 1 / g(x) that is next, and its sum.
// Three arrays: the first two are each copied in one piece from an array of the slot.
#[derive(Drop)]
struct Lanes {
    xs: [u16; LANES],
    powers: [u16; LANES],
    sums: [u16; LANES],
}

impl Lanes {
    // Takes up the thirty-two columns that begin with the block's.
    fn take_columns(&mut self, slot: &KeySlot, block: Block)
        ensures xs { (k : ℕ) → k < 32 → slice_index self.new.xs k ≡ slice_index slot.now.support (block.at + k) }
        ensures powers { (k : ℕ) → k < 32 → slice_index self.new.powers k ≡ slice_index slot.now.inverses (block.at + k) }
        ensures sums { (k : ℕ) → k < 32 → slice_index self.new.sums k ≡ 0 }
    {
        let end = block.at + LANES;
        self.xs.copy_from_slice(&slot.support[block.at..end]);
        self.powers.copy_from_slice(&slot.inverses[block.at..end]);
        self.sums.fill(0);
    }

    // Adds to each sum what the word has of its power, and takes each power times its x.
    fn advance<F: Field>(&mut self, word: u16)
        ensures xs { self.new.xs ≡ self.old.xs }
        ensures powers { (k : ℕ) → k < 32 → slice_index self.new.powers k ≡ times F.WIDTH F.REDUCER (slice_index self.old.xs k) (slice_index self.old.powers k) }
        ensures sums { (k : ℕ) → k < 32 → slice_index self.new.sums k ≡ bit_xor (slice_index self.old.sums k) (bit_and word (slice_index self.old.powers k)) }
    {
        // by index: after iter_mut under zip a proof knows nothing of what was written
        for j in 0..LANES {
            self.sums[j] ^= word & self.powers[j];
            self.powers[j] = F::mul(self.xs[j], self.powers[j]);
        }
    }

    // What they held is secret.
    fn clear(&mut self)
        ensures xs { AllZero self.new.xs }
        ensures powers { AllZero self.new.powers }
        ensures sums { AllZero self.new.sums }
    {
        self.xs.fill(0);
        self.powers.fill(0);
        self.sums.fill(0);
    }
}

// Adds the words against y, x y, x^2 y, .. of each lane.
fn cross<F: Field>(words: &[u16], lanes: &mut Lanes)
    requires { (k : ℕ) → k < 32 → slice_index lanes.old.sums k ≡ 0 }
    ensures { (k : ℕ) → k < 32 → slice_index lanes.new.sums k ≡ crossed F.WIDTH F.REDUCER (length words.now) words.now (slice_index lanes.old.xs k) (slice_index lanes.old.powers k) }
{
    for word in words {
        lanes.advance::<F>(*word);
    }
}

// The same, over the field of the set.
fn cross_in(set: ParameterSet, words: &[u16], lanes: &mut Lanes)
    requires { (k : ℕ) → k < 32 → slice_index lanes.old.sums k ≡ 0 }
    ensures { (k : ℕ) → k < 32 → slice_index lanes.new.sums k ≡ crossed set.m set.f (length words.now) words.now (slice_index lanes.old.xs k) (slice_index lanes.old.powers k) }
{
    over_field!(set, cross(words, lanes))
}

// The sum of the bits of a word.
fn word_parity(x: u16) -> u8
    ensures value { result ≡ parity_of x }
    ensures small { result < 2 }
{
    let [low, high] = x.to_le_bytes();
    parity(low) ^ parity(high)
}

// The parities of words.
#[derive(Clone, Copy)]
struct Parities<'a> {
    words: &'a [u16],
}

impl BitSource for Parities<'_> {
    ghost vector = { λ s k. parity_of (slice_index s.words.now k) };

    fn bit(&self, i: usize) -> u8 {
        if i < self.words.len() {
            word_parity(self.words[i])
        } else {
            0
        }
    }
}

impl LentWords<'_, '_> {
    // Takes up the bits of a vector, m in each word.
    fn take(&mut self, v: &[u8])
        ensures slot { self.new.slot.now ≡ self.old.slot.now }
        ensures words { (i : ℕ) → i < self.old.slot.now.set.t → slice_index self.new.words.now i ≡ word_of self.old.slot.now.set.m v.now i }
    {
        let set = self.slot.set;
        for (i, word) in self.words.iter_mut().enumerate() {
            *word = word_at(v, set, i);
        }
    }

    // The words against the thirty-two columns that begin with the block's.
    fn cross_columns(&self, block: Block, lanes: &mut Lanes)
        ensures { (k : ℕ) → k < 32 → slice_index lanes.new.sums k ≡ column_crossed self.now.slot.now self.now.words.now (block.at + k) }
    {
        lanes.take_columns(self.slot, block);
        cross_in(self.slot.set, self.words, lanes)
    }

    // Writes the words times the columns of a block.
    fn write_block(&self, block: Block, lanes: &mut Lanes, out: &mut [u8])
        requires { length out.old ≡ bytes_for block.count }
        ensures { out.new ≡ pack block.count (λ k. parity_of (column_crossed self.now.slot.now self.now.words.now (block.at + k))) }
    {
        self.cross_columns(block, lanes);
        write_bits(&Parities { words: &lanes.sums }, block.count, out)
    }

    // Writes the words times the check block. The lanes are cleared.
    fn write_blocks(&self, lanes: &mut Lanes, out: &mut [u8])
        requires { length out.old ≡ bytes_for (rows_of self.now.slot.now) }
        ensures written { out.new ≡ pack (rows_of self.now.slot.now) (λ j. parity_of (column_crossed self.now.slot.now self.now.words.now j)) }
        ensures xs { AllZero lanes.new.xs }
        ensures powers { AllZero lanes.new.powers }
        ensures sums { AllZero lanes.new.sums }
    {
        let n = self.slot.set.rows();
        let blocks = n.div_ceil(LANES);
        // by number: after chunks_mut a proof knows nothing of what was written
        for b in 0..blocks {
            let at = LANES * b;
            let count = (n - at).min(LANES);
            let first = at / 8;
            let end = first + bytes_for(count);
            self.write_block(Block { at, count }, lanes, &mut out[first..end]);
        }
        lanes.clear();
    }
}

// Of one shape with column_action: two actions of one trait, each with its own work.
pub(crate) fn row_action(slot: &KeySlot, v: &[u8], out: &mut [u8]) -> Result<(), OperatorFault>
    ensures { RowAction (rows_of slot.now) (check_matrix slot.now) v.now out.old out.new result }
{
    check_lengths(slot.set.rows(), v, out)?;
    let mut memory = [0u16; 128];
    let mut vector = LentWords::new(slot, &mut memory[..slot.set.t]);
    vector.take(v);
    let mut lanes = Lanes {
        xs: [0; LANES],
        powers: [0; LANES],
        sums: [0; LANES],
    };
    vector.write_blocks(&mut lanes, out);
    Ok(())
}
