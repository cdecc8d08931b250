use params::set::SetFault;

// Why no polynomial is made: the set, a memory's length, the first entry that is too large, or
// dependent powers.
#[derive(Clone, Copy)]
pub enum MakerFault {
    Set(SetFault),
    Length,
    Large(usize),
    Dependent,
}
