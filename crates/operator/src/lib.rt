// Operators: an N by N bit matrix M, N from 1 to 1,664, known by its two actions, M v and v M.
// Every operator shows that both actions are those of one M; a refused action writes nothing.
// What a matrix is good for, blinding or checking, is told by the crates above.
#![tactic(auto)]

ghost use Rattle.std.specs.Prelude.{◌≡◌, ℕ, ◌<◌, ◌≤◌, length};
ghost use Rattle.matrix.specs.Matrix.{Mat};
ghost use Rattle.operator.specs.Actions.{answer, ColumnAction, RowAction};
ghost use Rattle.operator.specs.Faults.{told_acting, told_making};

pub mod fault;
pub mod pair;
pub mod stored;

use bits::bytes_for;
use fault::{MakeFault, OperatorFault};
use refusal::Fault;
use refusal::told::{Layer, Refusal};

// The largest N.
pub const LARGEST: usize = 1664;

// An action takes `v` and `out` as two parameters: both are lent for one call, one is read and one
// written, and each is refused for its own length.
pub trait Operator {
    // N and M
    ghost order: { Self → ℕ };

    // M; an entry counts by its lowest bit
    ghost matrix: { Self → Mat };

    ghost bounded: { (x : Self) → (0 < order x) × (order x ≤ 1664) };

    fn size(&self) -> usize
        ensures { result ≡ order self.now };

    // Writes M v.
    fn column_action(&self, v: &[u8], out: &mut [u8]) -> Result<(), OperatorFault>
        ensures { ColumnAction (order self.now) (matrix self.now) v.now out.old out.new result };

    // Writes v M.
    fn row_action(&self, v: &[u8], out: &mut [u8]) -> Result<(), OperatorFault>
        ensures { RowAction (order self.now) (matrix self.now) v.now out.old out.new result };
}

// Refuses a vector, then a result, that is not as long as the size asks for.
pub fn check_lengths(size: usize, v: &[u8], out: &[u8]) -> Result<(), OperatorFault>
    ensures { result ≡ answer size (length v.now) (length out.now) }
{
    let length = bytes_for(size);
    if v.len() != length {
        return Err(OperatorFault::Length(v.len()));
    }
    if out.len() != length {
        return Err(OperatorFault::Length(out.len()));
    }
    Ok(())
}

// A lent operator is an operator.
impl<O: Operator> Operator for &O {
    ghost order = { λ s. O.order s.now };

    ghost matrix = { λ s. O.matrix s.now };

    ghost bounded = { λ s. O.bounded s.now };

    fn size(&self) -> usize {
        (**self).size()
    }

    fn column_action(&self, v: &[u8], out: &mut [u8]) -> Result<(), OperatorFault> {
        (**self).column_action(v, out)
    }

    fn row_action(&self, v: &[u8], out: &mut [u8]) -> Result<(), OperatorFault> {
        (**self).row_action(v, out)
    }
}

impl Fault for OperatorFault {
    ghost told = { told_acting };

    fn refusal(self) -> Refusal {
        match self {
            OperatorFault::Length(length) => Refusal::new(Layer::Operators, 8, length),
        }
    }
}

impl Fault for MakeFault {
    ghost told = { told_making };

    fn refusal(self) -> Refusal {
        match self {
            MakeFault::Size(size) => Refusal::new(Layer::Operators, 6, size),
            MakeFault::Memory(length) => Refusal::new(Layer::Operators, 7, length),
            MakeFault::Differ(size) => Refusal::new(Layer::Operators, 9, size),
        }
    }
}
