// The private check matrix at work: its columns, and its first columns, the check block, as an
// operator. Every action gives the packed product with the key's check matrix, computed from the key,
// or a refusal that writes nothing. Loading keys and joining operators is left to other crates.
#![tactic(auto)]

ghost use Rattle.std.specs.Prelude.{◌≡◌, length};
ghost use Rattle.guard.specs.Zero.{AllZero};
ghost use Rattle.goppa.specs.Loading.{check_matrix};
ghost use Rattle.block.specs.Slots.{rows_of, sizes_of, sizes_bounded, check_bits};

mod column;
mod row;

use goppa::slot::KeySlot;
use key::Key;
use key::fault::ColumnFault;
use key::sizes::Sizes;
use operator::Operator;
use operator::fault::OperatorFault;

// The check block of a key.
#[derive(Clone, Copy)]
pub struct CheckBlock<'a> {
    pub slot: &'a KeySlot,
}

impl Operator for CheckBlock<'_> {
    ghost order = { λ s. rows_of s.slot.now };

    ghost matrix = { λ s. check_matrix s.slot.now };

    ghost bounded = { λ s. (s.slot.now.set.order, s.slot.now.set.rows) };

    fn size(&self) -> usize {
        self.slot.set.rows()
    }

    fn column_action(&self, v: &[u8], out: &mut [u8]) -> Result<(), OperatorFault> {
        column::column_action(self.slot, v, out)
    }

    fn row_action(&self, v: &[u8], out: &mut [u8]) -> Result<(), OperatorFault> {
        row::row_action(self.slot, v, out)
    }
}

// The key of a slot, as sessions know it. A type of its own: Key and Operator both have a row_action,
// so that a call of it on one type with both would be ambiguous.
#[derive(Clone, Copy)]
pub struct SlotKey<'a> {
    pub slot: &'a KeySlot,
}

impl Key for SlotKey<'_> {
    ghost sizes = { λ s. sizes_of s.slot.now };

    ghost checks = { λ s. check_matrix s.slot.now };

    ghost bounded = { λ s. sizes_bounded s.slot.now };

    ghost elements = { λ s. check_bits s.slot.now };

    fn set(&self) -> Sizes {
        let set = self.slot.set;
        Sizes {
            rows: set.rows(),
            rest: set.rest(),
        }
    }

    fn column(&self, j: usize, out: &mut [u8]) -> Result<(), ColumnFault> {
        column::column(self.slot, j, out)
    }

    fn row_action(&self, v: &[u8], out: &mut [u8]) -> Result<(), OperatorFault> {
        CheckBlock { slot: self.slot }.row_action(v, out)
    }
}

// The memory that a matrix action works in: t words of m bits, cut from an array for the largest t, since
// there is no heap. What they held is secret, so they are zero again when they are let go.
struct LentWords<'k, 'w> {
    slot: &'k KeySlot,
    words: &'w mut [u16],
    ghost long: { length words.now ≡ slot.now.set.t },
}

impl<'k, 'w> LentWords<'k, 'w> {
    // Words of zeros.
    fn new(slot: &'k KeySlot, words: &'w mut [u16]) -> LentWords<'k, 'w>
        requires { length words.old ≡ slot.now.set.t }
        ensures slot { result.slot.now ≡ slot.now }
        ensures zero { AllZero result.words.now }
    {
        words.fill(0);
        LentWords { slot, words }
    }
}

impl Drop for LentWords<'_, '_> {
    fn drop(self)
        ensures { AllZero self.exit.1.0.now }
    {
        let LentWords { slot: _, words } = self;
        words.fill(0);
    }
}
