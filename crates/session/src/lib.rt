// The card's session: it answers frames while it is open, closes when all rows were taken, then publishes.
// Every call's contract says what it returns, refusals included, and what session, memories and sink then hold.
// What the calls of a whole run come to is told by crate runs; transport and memory are the caller's.
#![tactic(auto)]

ghost use Rattle.std.specs.Prelude.{◌≡◌, ◌+◌, ◌*◌, ◌<◌, ◌≤◌, [], length, slice_index_or};
ghost use Rattle.session.specs.Faults.{told};
ghost use Rattle.session.specs.declared.fault.SessionFault.TheVariants.{Sink, Operator, Column};
ghost use Rattle.galois.specs.Bit.{bits};
ghost use Rattle.matrix.specs.Matrix.{times, apply_row};
ghost use Rattle.bits.specs.Bits.{bytes_for, bits_of, pack};
ghost use Rattle.session.specs.Table.{first, refused_by, length_lines, blinded};
ghost use Rattle.session.specs.Answers.{unblinded};

pub mod fault;
pub mod frame;
pub mod open;
pub mod ready;
pub mod state;

use bits::bytes_for;
use fault::SessionFault;
use key::Key;
use key::fault::ColumnFault;
use operator::Operator;
use operator::fault::OperatorFault;
use refusal::Fault;
use refusal::told::{Layer, Refusal};
use sink::fault::SinkFault;

// By hand, since a derived `From` has no contract, and the contracts of the calls name the fault that `?` makes.
impl From<SinkFault> for SessionFault {
    ghost from_gives = { λ f r. r ≡ Sink f };

    fn from(inner: SinkFault) -> SessionFault {
        SessionFault::Sink(inner)
    }
}

impl From<OperatorFault> for SessionFault {
    ghost from_gives = { λ f r. r ≡ Operator f };

    fn from(inner: OperatorFault) -> SessionFault {
        SessionFault::Operator(inner)
    }
}

impl From<ColumnFault> for SessionFault {
    ghost from_gives = { λ f r. r ≡ Column f };

    fn from(inner: ColumnFault) -> SessionFault {
        SessionFault::Column(inner)
    }
}

impl Fault for SessionFault {
    ghost told = { told };

    fn refusal(self) -> Refusal {
        match self {
            SessionFault::Set => Refusal::new(Layer::Session, 10, 0),
            SessionFault::Blinding => Refusal::new(Layer::Session, 10, 1),
            SessionFault::Inverse(length) => Refusal::new(Layer::Session, 11, length),
            SessionFault::Working(length) => Refusal::new(Layer::Session, 12, length),
            SessionFault::Reply(length) => Refusal::new(Layer::Session, 13, length),
            SessionFault::Kind(kind) => Refusal::new(Layer::Session, 14, usize::from(kind)),
            SessionFault::Length(length) => Refusal::new(Layer::Session, 15, length),
            SessionFault::Phase(phase) => Refusal::new(Layer::Session, 16, usize::from(phase)),
            SessionFault::Index(index) => Refusal::new(Layer::Session, 17, index),
            SessionFault::Turn(next) => Refusal::new(Layer::Session, 18, next),
            SessionFault::Wrong(column) => Refusal::new(Layer::Session, 19, column),
            SessionFault::Zero => Refusal::new(Layer::Session, 20, 0),
            SessionFault::Nonzero(column) => Refusal::new(Layer::Session, 21, column),
            SessionFault::Receiving(rows) => Refusal::new(Layer::Session, 22, rows),
            SessionFault::Singular => Refusal::new(Layer::Session, 23, 0),
            SessionFault::Done(columns) => Refusal::new(Layer::Session, 24, columns),
            SessionFault::Size(size) => Refusal::new(Layer::Session, 25, size),
            SessionFault::Sink(fault) => fault.refusal(),
            SessionFault::Operator(fault) => fault.refusal(),
            SessionFault::Column(fault) => fault.refusal(),
        }
    }
}

// Refuses an inverse memory that is not n rows of n bits, then working memory that is not two such rows.
fn check_lengths(n: usize, inverse: usize, working: usize) -> Result<(), SessionFault>
    requires { n ≤ 1664 }
    ensures { result ≡ refused_by (first (length_lines n inverse working)) }
{
    let l = bytes_for(n);
    if inverse != n * l {
        return Err(SessionFault::Inverse(inverse));
    }
    if working < 2 * l {
        return Err(SessionFault::Working(working));
    }
    Ok(())
}

// An operator times a key's check matrix; its working memory is two vectors of n bits, a and b.
// That a vector or the inverse memory is as long as n asks is said of each that is lent beside it: a type
// for it would hold an n of its own, of which each call would ask that it is the product's. So with a
// session's rows. That the set stays is said of each change of a session, whose types hold plain numbers. B is
// written out in each clause, which so shows that it depends on operator and key.
#[derive(Drop)]
struct Product<'k, 'w, K: Key, O: Operator> {
    n: usize,
    left: &'k O,
    key: &'k K,
    a: &'w mut [u8],
    b: &'w mut [u8],
    ghost rows: { n ≡ (K.sizes key.now).rows },
    ghost order: { n ≡ O.order left.now },
    ghost first: { length a.now ≡ bytes_for n },
    ghost second: { length b.now ≡ bytes_for n },
}

// v times an operator, into a.
fn unblind<O: Operator>(left: &O, v: &[u8], a: &mut [u8]) -> Result<(), SessionFault>
    requires vector { length v.now ≡ bytes_for (O.order left.now) }
    requires room { length a.old ≡ bytes_for (O.order left.now) }
    ensures result { result ≡ Ok tt }
    ensures written { a.new ≡ unblinded (O.order left.now) (O.matrix left.now) v.now }
{
    left.row_action(v, a)?;
    Ok(())
}

impl<'k, 'w, K: Key, O: Operator> Product<'k, 'w, K, O> {
    fn new(left: &'k O, key: &'k K, working: &'w mut [u8]) -> Product<'k, 'w, K, O>
        requires order { O.order left.now ≡ (K.sizes key.now).rows }
        requires room { 2 * bytes_for (K.sizes key.now).rows ≤ length working.old }
        ensures n { result.n ≡ (K.sizes key.now).rows }
        ensures left { result.left.now ≡ left.now }
        ensures key { result.key.now ≡ key.now }
    {
        let n = key.set().rows;
        let l = bytes_for(n);
        let (a, rest) = working.split_at_mut(l);
        let (b, _) = rest.split_at_mut(l);
        Product { n, left, key, a, b }
    }

    // Column j of the product into b, by way of that column of the check matrix in a.
    fn column(&mut self, j: usize) -> Result<(), SessionFault>
        requires { j < self.old.n + (K.sizes self.old.key.now).rest }
        ensures result { result ≡ Ok tt }
        ensures written { self.new.b.now ≡ pack self.old.n (λ i. times bits self.old.n (O.matrix self.old.left.now) (K.checks self.old.key.now) i j) }
        ensures block { j < self.old.n → self.new.b.now ≡ slice_index_or (blinded self.old.n (O.matrix self.old.left.now) (K.checks self.old.key.now)) j [] }
        ensures long { length self.new.b.now ≡ bytes_for self.old.n }
    {
        let (a, b) = (&mut *self.a, &mut *self.b);
        self.key.column(j, a)?;
        self.left.column_action(a, b)?;
        Ok(())
    }

    // v times the operator into a, and that times the check block into b.
    fn row(&mut self, v: &[u8]) -> Result<(), SessionFault>
        requires { length v.now ≡ bytes_for self.old.n }
        ensures result { result ≡ Ok tt }
        ensures first { self.new.a.now ≡ unblinded self.old.n (O.matrix self.old.left.now) v.now }
        ensures second { self.new.b.now ≡ pack self.old.n (apply_row bits self.old.n (times bits self.old.n (O.matrix self.old.left.now) (K.checks self.old.key.now)) (bits_of v.now)) }
    {
        let (a, b) = (&mut *self.a, &mut *self.b);
        unblind(self.left, v, a)?;
        self.key.row_action(a, b)?;
        Ok(())
    }
}
