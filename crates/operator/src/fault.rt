// What an action is refused by: the length of a vector or of a result.
#[derive(Clone, Copy)]
pub enum OperatorFault {
    Length(usize),
}

// What the making of an operator is refused by: its size, the length of its memory, the size of a
// pair's second operator.
#[derive(Clone, Copy)]
pub enum MakeFault {
    Size(usize),
    Memory(usize),
    Differ(usize),
}
