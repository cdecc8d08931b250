use solver::Solved;

// Where a host stands between two frames.
#[derive(Clone, Copy)]
pub enum Stage {
    // asks this column
    Columns(usize),
    // has all columns
    Full,
    // has solved, and asks how many rows were taken
    Status(Solved),
    // sends this row of the second table
    Rows(usize),
    // sends this row of the second table as the combination
    Combination(usize),
    // has no more to say
    Done,
}
