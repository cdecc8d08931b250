// The rows of a check matrix, and its columns past the check block. They tell the parameter set.
#[derive(Clone, Copy, PartialEq, Eq)]
pub struct Sizes {
    pub rows: usize,
    pub rest: usize,
}
