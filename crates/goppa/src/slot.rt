ghost use Rattle.std.specs.Prelude.{◌≡◌, length, slice_index};
ghost use Rattle.matrix.specs.Matrix.{Elements};
ghost use Rattle.goppa.specs.Keys.{ZeroFrom, Distinct, Rootless, Inverses};

use params::set::ParameterSet;

// The slot of the private key: the coefficients g_0 to g_(t-1), the support, and 1 / g at each
// entry of the support. The arrays have room for the largest set, since the card has no heap. Support and
// inverses are two arrays, not one of pairs, since thirty-two entries of each are taken at once. What the
// key does not fill is 0, so nothing of an older key stays.
#[derive(Drop)]
pub struct KeySlot {
    pub set: ParameterSet,
    pub goppa: [u16; 128],
    pub support: [u16; 8192],
    pub inverses: [u16; 8192],
    ghost degree: { length goppa ≡ 128 },
    ghost long: { length support ≡ 8192 },
    ghost kept: { length inverses ≡ 8192 },
    ghost coefficients: { Elements set.m set.t (λ k. slice_index goppa k) },
    ghost points: { Elements set.m set.n (λ j. slice_index support j) },
    ghost distinct: { Distinct set.n (λ j. slice_index support j) },
    ghost rootless: { Rootless set.m set.f set.t set.n (λ k. slice_index goppa k) (λ j. slice_index support j) },
    ghost inverted: { Inverses set.m set.f set.t set.n (λ k. slice_index goppa k) (λ j. slice_index support j) (λ j. slice_index inverses j) },
    ghost goppa_rest: { ZeroFrom set.t goppa },
    ghost support_rest: { ZeroFrom set.n support },
    ghost inverses_rest: { ZeroFrom set.n inverses },
}
