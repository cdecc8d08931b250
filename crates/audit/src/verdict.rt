// What is found of bytes that are to be the public key of a private key.
#[derive(Clone, Copy, PartialEq, Eq, Debug)]
pub enum Verdict {
    // they are the packed public key
    Right,
    // they are of this length, and the packed public key is not
    Length(usize),
    // the check block has no inverse: there is no public key
    NoKey,
    // in this column, the first that is not the public key's, this row is the first with another bit
    Wrong { column: usize, row: usize },
    // every column is right, but a pad bit of this row, the first such, is not 0
    Pad { row: usize },
}
