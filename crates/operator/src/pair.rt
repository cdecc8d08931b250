// The product of two operators, itself an operator.
ghost use Rattle.std.specs.Prelude.{◌≡◌, length};
ghost use Rattle.galois.specs.Bit.{bits};
ghost use Rattle.matrix.specs.Matrix.{times};
ghost use Rattle.bits.specs.Bits.{bytes_for};
ghost use Rattle.guard.specs.Zero.{AllZero};
ghost use Rattle.operator.specs.Actions.{ColumnAction, pair_check, pair_order, pair_matrix, pair_bounded, zeros, transposed};

use super::fault::{MakeFault, OperatorFault};
use super::{LARGEST, Operator, check_lengths};
use bits::bytes_for;
use guard::Wiped;

// The bytes of the longest vector: there is no heap, so memory for one is cut from this.
const LONGEST: usize = LARGEST / 8;

// Where the sizes differ it is the 1 by 1 zero matrix.
#[derive(Drop)]
pub struct Pair<A: Operator, B: Operator> {
    pub first: A,
    pub second: B,
}

impl<A: Operator, B: Operator> Pair<A, B> {
    pub fn check(first: &A, second: &B) -> Result<(), MakeFault>
        ensures { result ≡ pair_check (A.order first.now) (B.order second.now) }
    {
        let size = second.size();
        if first.size() != size {
            return Err(MakeFault::Differ(size));
        }
        Ok(())
    }
}

impl<A: Operator, B: Operator> Operator for Pair<A, B> {
    ghost order = { λ p. pair_order (A.order p.first) (B.order p.second) };

    ghost matrix = { λ p. pair_matrix (A.order p.first) (A.matrix p.first) (B.order p.second) (B.matrix p.second) };

    ghost bounded = { λ p. pair_bounded (A.order p.first) (B.order p.second) (A.bounded p.first) };

    fn size(&self) -> usize {
        let size = self.first.size();
        if size == self.second.size() { size } else { 1 }
    }

    fn column_action(&self, v: &[u8], out: &mut [u8]) -> Result<(), OperatorFault> {
        product_action(&self.first, &self.second, v, out)
    }

    // v (a b) is (b' a') v, where a' and b' are the transposed.
    fn row_action(&self, v: &[u8], out: &mut [u8]) -> Result<(), OperatorFault> {
        let (first, second) = (&self.first, &self.second);
        product_action(
            &Transposed { of: second },
            &Transposed { of: first },
            v,
            out,
        )
    }
}

// The operator of the transposed matrix: the two actions change places.
#[derive(Drop)]
struct Transposed<O: Operator> {
    of: O,
}

impl<O: Operator> Operator for Transposed<O> {
    ghost order = { λ t. O.order t.of };

    ghost matrix = { λ t. transposed (O.matrix t.of) };

    ghost bounded = { λ t. O.bounded t.of };

    fn size(&self) -> usize {
        self.of.size()
    }

    fn column_action(&self, v: &[u8], out: &mut [u8]) -> Result<(), OperatorFault> {
        self.of.row_action(v, out)
    }

    fn row_action(&self, v: &[u8], out: &mut [u8]) -> Result<(), OperatorFault> {
        self.of.column_action(v, out)
    }
}

// The column action of the pair of a and b.
fn product_action<A: Operator, B: Operator>(
    a: &A,
    b: &B,
    v: &[u8],
    out: &mut [u8],
) -> Result<(), OperatorFault>
    ensures { ColumnAction (pair_order (A.order a.now) (B.order b.now)) (pair_matrix (A.order a.now) (A.matrix a.now) (B.order b.now) (B.matrix b.now)) v.now out.old out.new result }
{
    let size = a.size();
    if size != b.size() {
        return zero_action(v, out);
    }
    let mut middle = [0u8; LONGEST];
    chain(a, b, v, &mut middle[..bytes_for(size)], out)
}

// a (b v), by way of b v in `middle`, which is cleared.
fn chain<A: Operator, B: Operator>(
    a: &A,
    b: &B,
    v: &[u8],
    middle: &mut [u8],
    out: &mut [u8],
) -> Result<(), OperatorFault>
    requires one { A.order a.now ≡ B.order b.now }
    requires room { length middle.old ≡ bytes_for (A.order a.now) }
    ensures acts { ColumnAction (A.order a.now) (times bits (A.order a.now) (A.matrix a.now) (B.matrix b.now)) v.now out.old out.new result }
    ensures cleared { AllZero middle.new }
{
    let guard = Wiped { bytes: middle };
    b.column_action(v, guard.bytes)?;
    a.column_action(guard.bytes, out)
}

// The column action of the 1 by 1 zero matrix.
fn zero_action(v: &[u8], out: &mut [u8]) -> Result<(), OperatorFault>
    ensures { ColumnAction 1 zeros v.now out.old out.new result }
{
    check_lengths(1, v, out)?;
    out[0] = 0;
    Ok(())
}
