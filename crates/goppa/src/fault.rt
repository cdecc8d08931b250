use params::set::SetFault;

// Why a key is refused: its set, its number of bytes, or the first entry of the key that is too
// large, that stands in the support already, or where g is zero.
#[derive(Clone, Copy)]
pub enum LoadFault {
    Set(SetFault),
    Length(usize),
    Large(usize),
    Repeated(usize),
    Root(usize),
}
