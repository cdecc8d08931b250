ghost use Rattle.std.specs.Prelude.{◌≡◌, ◌+◌, ◌*◌, ◌/◌, ◌^◌, ◌<◌, ◌≤◌, true, length};
ghost use Rattle.params.specs.Known.{known, below};

use crate::numbers::Term;

// A parameter set: its numbers, with the relations between them.
#[derive(Clone, Copy)]
pub struct ParameterSet {
    pub m: u32,
    pub f: u16,
    pub t: usize,
    pub n: usize,
    pub terms: [Term; 4],
    ghost field: { known m f ≡ true },
    ghost wide: { m ≤ 13 },
    ghost some: { 0 < t },
    ghost degree: { t ≤ 128 },
    ghost order: { 1 ≤ m * t },
    ghost rows: { m * t ≤ 1664 },
    ghost packed: { (m * t + 7) / 8 ≤ 208 },
    ghost columns: { m * t < n },
    ghost points: { n ≤ 2 ^ m },
    ghost long: { n ≤ 8192 },
    ghost entries: { t + n ≤ 8320 },
    ghost four: { length terms ≡ 4 },
    ghost reduced: { below m t terms ≡ true },
}

// Why no set is given: none has this name.
#[derive(Clone, Copy)]
pub enum SetFault {
    Name,
}
