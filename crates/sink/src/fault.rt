// Why a sink takes or reads no column: the length of the memory, the limit, or a column that is not
// yet taken.
#[derive(Clone, Copy)]
pub enum SinkFault {
    Length(usize),
    Full(usize),
    Absent(usize),
}

// Why a sink is not made: its size, its limit, or the length of its memory.
#[derive(Clone, Copy)]
pub enum MakeFault {
    Size(usize),
    Limit,
    Memory,
}
