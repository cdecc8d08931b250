// The refusals of a session, in the order of their numbers. A refusal of a lower layer stays whole inside.
use key::fault::ColumnFault;
use operator::fault::OperatorFault;
use sink::fault::SinkFault;

#[derive(Clone, Copy)]
pub enum SessionFault {
    // 10: the set is not the session's; the blinding's size is not mt
    Set,
    Blinding,
    // 11, 12, 13: a memory's length
    Inverse(usize),
    Working(usize),
    Reply(usize),
    // 14, 15: a frame's kind, its length; 16: the phase, by the number that the refusal tells and that
    // the definitions count with
    Kind(u8),
    Length(usize),
    Phase(u8),
    // 17: the index; 18: the next row; 19: the first wrong column
    Index(usize),
    Turn(usize),
    Wrong(usize),
    // 20: the combination is zero; 21: the first nonzero column
    Zero,
    Nonzero(usize),
    // 22: the rows taken; 23: singular
    Receiving(usize),
    Singular,
    // 24: k; 25: the sink's size
    Done(usize),
    Size(usize),
    // 26, and what lower layers refuse by
    Sink(SinkFault),
    Operator(OperatorFault),
    Column(ColumnFault),
}
