// Theory of the polynomials over a field modulo a polynomial F(y): their ring, and the one monic polynomial
// over the field of degree t that is zero at one of them. It has no code but a function whose contract puts
// its theorems under the check.
#![tactic(auto)]

ghost use Rattle.std.specs.Prelude.{ℕ, ◌<◌, ◌⊎◌};
ghost use Rattle.galois.specs.Arith.{Arith};
ghost use Rattle.quotient.specs.Quotient.{Ring};
ghost use Rattle.quotient.specs.Roots.{TheMonic, DependentPowers};

// Over every field and for every F(y): the products and remainders that are defined make a ring, in
// which F(y) is zero; and for each b there is the one monic polynomial, or the powers of b below b^t are
// dependent.
pub fn theory_stands() -> u8
    ensures ring { (K : Arith) (t : ℕ) (low : ℕ → ℕ) → 0 < t → Ring K t low }
    ensures roots { (K : Arith) (t : ℕ) (low b : ℕ → ℕ) → ((g : ℕ → ℕ) × TheMonic K.mul K.width t low b g) ⊎ DependentPowers K.mul K.width t low b }
{
    0
}
