// Theory of matrices over a field: products, inverses, elimination, the systematic form.
// It has no code but a function whose contract puts its theorems under the check.
#![tactic(auto)]

ghost use Rattle.galois.specs.Arith.{Arith};
ghost use Rattle.matrix.specs.Words.{Algebra, Inverses};

// Over every field: what is known of inverses, and the algebra of split key generation.
pub fn theory_stands() -> u8
    ensures inverses { (F : Arith) → Inverses F }
    ensures algebra { (F : Arith) → Algebra F }
{
    0
}
