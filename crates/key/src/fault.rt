// What giving a column is refused by: the length of the memory for it, the column's number.
#[derive(Clone, Copy)]
pub enum ColumnFault {
    Length(usize),
    Index(usize),
}
