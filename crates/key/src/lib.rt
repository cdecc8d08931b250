// What a private key is to a session: its sizes and its check matrix, known by columns and by the
// row action of the check block. Every key shows that both are those of one matrix of bits; a refused
// call writes nothing. How a key is held and loaded is told by the crates that implement it.
#![tactic(auto)]

ghost use Rattle.std.specs.Prelude.{◌≡◌, ◌<◌, ◌≤◌};
ghost use Rattle.galois.specs.Bit.{bits};
ghost use Rattle.matrix.specs.Matrix.{Mat, Els};
ghost use Rattle.operator.specs.Actions.{RowAction};
ghost use Rattle.key.specs.Columns.{ColumnGiven, told_column};
ghost use Rattle.key.specs.declared.sizes.Sizes.{Sizes};

pub mod fault;
pub mod sizes;

use fault::ColumnFault;
use operator::fault::OperatorFault;
use refusal::Fault;
use refusal::told::{Layer, Refusal};
use sizes::Sizes;

pub trait Key {
    ghost sizes: { Self → Sizes };

    // the private check matrix; its first columns, as many as it has rows, are the check block
    ghost checks: { Self → Mat };

    ghost bounded: { (x : Self) → (0 < (sizes x).rows) × ((sizes x).rows ≤ 1664) × ((sizes x).rest ≤ 8192) };

    ghost elements: { (x : Self) → Els bits (checks x) };

    fn set(&self) -> Sizes
        ensures { result ≡ sizes self.now };

    // Writes column j of the check matrix.
    fn column(&self, j: usize, out: &mut [u8]) -> Result<(), ColumnFault>
        ensures { ColumnGiven (sizes self.now) (checks self.now) j out.old out.new result };

    // Writes v times the check block.
    fn row_action(&self, v: &[u8], out: &mut [u8]) -> Result<(), OperatorFault>
        ensures { RowAction (sizes self.now).rows (checks self.now) v.now out.old out.new result };
}

impl Fault for ColumnFault {
    ghost told = { told_column };

    fn refusal(self) -> Refusal {
        match self {
            ColumnFault::Length(length) => Refusal::new(Layer::Operators, 8, length),
            ColumnFault::Index(index) => Refusal::new(Layer::Operators, 17, index),
        }
    }
}
