// The open session: answering and closing.
ghost use Rattle.std.specs.Prelude.{◌≡◌, ℕ, ◌+◌, ◌*◌, ◌<◌, ◌≤◌, not, List, [], ◌∷◌, length, Some, None, Ok, Err, MatchResult, ◌==◌, nat_lt, ◌++◌};
ghost use Rattle.matrix.specs.Matrix.{delta};
ghost use Rattle.matrix.specs.Search.{least};
ghost use Rattle.bits.specs.Bits.{bytes_for, bits_of};
ghost use Rattle.bits.specs.Bytes.{laid};
ghost use Rattle.guard.specs.Zero.{AllZero};
ghost use Rattle.session.specs.State.{phase_number};
ghost use Rattle.session.specs.Table.{line, first, refused_by, secret, blinded, lent, memory_lines, frame_lines, unit_lines, combination_lines, closing_lines, row_in};
ghost use Rattle.session.specs.Answers.{granted, Stepped, Answered, column_reply, row_reply, combination_reply, status_reply, unblinded, with_row, refusal_reply};
ghost use Rattle.session.specs.declared.state.Phase.TheVariants.{Receiving};
ghost use Rattle.session.specs.declared.fault.SessionFault.TheVariants.{Wrong, Zero, Nonzero};
ghost use Rattle.session.specs.Replies.{bytes_of};

use super::fault::SessionFault;
use super::frame::{Frame, read};
use super::state::{Answer, Open, Phase, Ready, StillOpen};
use super::{Product, check_lengths};
use bits::{bytes_for, first_nonzero, first_wrong};
use guard::Wiped;
use key::Key;
use operator::Operator;
use refusal::Fault;
use refusal::told::Refusal;

// A reply, before it is written. Its kind's number stands where it is written and nowhere else, so the kinds
// need no type of their own. Indices and counts are at most 1,664, so each cast that makes two bytes of one is
// exact; a conversion that can fail would need an arm that no call reaches.
#[derive(Drop)]
enum Reply<'a> {
    Column { index: u16, body: &'a [u8] },
    Row { taken: u16 },
    Singular,
    Status { phase: Phase, rows: u16 },
    Refused(Refusal),
}

// A head and a body, at the start of a memory.
fn put(memory: &mut [u8], head: &[u8], body: &[u8]) -> usize
    requires { length head.now + length body.now ≤ length memory.old }
    ensures long { result ≡ length (head.now ++ body.now) }
    ensures bytes { memory.new ≡ laid (head.now ++ body.now) memory.old }
{
    let start = head.len();
    let end = start + body.len();
    memory[..start].copy_from_slice(head);
    memory[start..end].copy_from_slice(body);
    end
}

impl Reply<'_> {
    // Writes the reply into a lent memory with room for it, and tells its length.
    fn write(self, memory: &mut [u8]) -> usize
        requires { length (bytes_of self) ≤ length memory.old }
        ensures long { result ≡ length (bytes_of self.entry) }
        ensures bytes { memory.new ≡ laid (bytes_of self.entry) memory.old }
    {
        match self {
            Reply::Column { index, body } => {
                let [low, high] = index.to_le_bytes();
                put(memory, &[0x21, low, high], body)
            }
            Reply::Row { taken } => {
                let [low, high] = taken.to_le_bytes();
                put(memory, &[0x22, low, high], &[])
            }
            Reply::Singular => put(memory, &[0x23], &[]),
            Reply::Status { phase, rows } => {
                let [low, high] = rows.to_le_bytes();
                put(memory, &[0x24, phase.number(), low, high], &[])
            }
            Reply::Refused(refusal) => {
                let [low, high] = refusal.place.to_le_bytes();
                put(memory, &[0x2f, refusal.number, low, high], &[])
            }
        }
    }
}

// Refuses a row that is not unit row i.
fn check_unit(row: &[u8], n: usize, i: usize) -> Result<(), SessionFault>
    ensures { result ≡ refused_by (first (line (nat_lt (least n (λ j. not (bits_of row.now j == delta i j))) n) (Wrong (least n (λ j. not (bits_of row.now j == delta i j)))) ∷ [])) }
{
    match first_wrong(row, n, i) {
        Some(wrong) => Err(SessionFault::Wrong(wrong)),
        None => Ok(()),
    }
}

// Refuses a vector that is zero.
fn check_some(v: &[u8], n: usize) -> Result<(), SessionFault>
    ensures { result ≡ refused_by (first (line (not (nat_lt (least n (λ j. not (bits_of v.now j == 0))) n)) Zero ∷ [])) }
{
    match first_nonzero(v, n) {
        Some(_) => Ok(()),
        None => Err(SessionFault::Zero),
    }
}

// Refuses a row that is not zero.
fn check_none(row: &[u8], n: usize) -> Result<(), SessionFault>
    ensures { result ≡ refused_by (first (line (nat_lt (least n (λ j. not (bits_of row.now j == 0))) n) (Nonzero (least n (λ j. not (bits_of row.now j == 0)))) ∷ [])) }
{
    match first_nonzero(row, n) {
        Some(nonzero) => Err(SessionFault::Nonzero(nonzero)),
        None => Ok(()),
    }
}

// Refuses s where s B is not unit row i; s times the blinding stays in a.
fn check_row<K: Key, O: Operator>(
    product: &mut Product<K, O>,
    s: &[u8],
    i: usize,
) -> Result<(), SessionFault>
    requires { length s.now ≡ bytes_for product.old.n }
    ensures result { let n = product.old.n in
        result ≡ refused_by (first (unit_lines n (blinded n (O.matrix product.old.left.now) (K.checks product.old.key.now)) i s.now)) }
    ensures first { product.new.a.now ≡ unblinded product.old.n (O.matrix product.old.left.now) s.now }
    ensures long { length product.new.a.now ≡ bytes_for product.old.n }
{
    let n = product.n;
    product.row(s)?;
    check_unit(product.b, n, i)
}

// Refuses v where it is zero, or v B is not.
fn check_combination<K: Key, O: Operator>(
    product: &mut Product<K, O>,
    v: &[u8],
) -> Result<(), SessionFault>
    requires { length v.now ≡ bytes_for product.old.n }
    ensures { let n = product.old.n in
        result ≡ refused_by (first (combination_lines n (blinded n (O.matrix product.old.left.now) (K.checks product.old.key.now)) v.now)) }
{
    let n = product.n;
    check_some(v, n)?;
    product.row(v)?;
    check_none(product.b, n)
}

// Sends column j of B.
fn send_column<K: Key, O: Operator>(
    product: &mut Product<K, O>,
    j: usize,
    reply: &mut [u8],
) -> Result<usize, SessionFault>
    requires at { (j < product.old.n) × (product.old.n ≤ 1664) }
    requires reply { bytes_for product.old.n + 3 ≤ length reply.old }
    ensures result { result ≡ Ok (length (column_reply (blinded product.old.n (O.matrix product.old.left.now) (K.checks product.old.key.now)) j)) }
    ensures bytes { reply.new ≡ laid (column_reply (blinded product.old.n (O.matrix product.old.left.now) (K.checks product.old.key.now)) j) reply.old }
{
    product.column(j)?;
    let column = Reply::Column {
        index: j as u16,
        body: product.b,
    };
    Ok(column.write(reply))
}

// Writes row i of n bits in its place.
fn put_row(memory: &mut [u8], n: usize, i: usize, row: &[u8])
    requires long { length row.now ≡ bytes_for n }
    requires room { i * bytes_for n + bytes_for n ≤ length memory.old }
    ensures { memory.new ≡ with_row n i row.now memory.old }
{
    let start = i * bytes_for(n);
    let end = start + row.len();
    memory[start..end].copy_from_slice(row);
}

// Writes a refusal as the reply.
fn refuse(reply: &mut [u8], fault: SessionFault) -> Answer
    requires { 4 ≤ length reply.old }
    ensures fault { result.fault ≡ Some fault }
    ensures long { result.length ≡ length (refusal_reply fault) }
    ensures bytes { reply.new ≡ laid (refusal_reply fault) reply.old }
{
    Answer {
        length: Reply::Refused(fault.refusal()).write(reply),
        fault: Some(fault),
    }
}

impl Open {
    // A session for a key; every key has one.
    pub fn new<K: Key>(key: &K) -> Open
        ensures set { result.set ≡ K.sizes key.now }
        ensures phase { result.phase ≡ Receiving }
        ensures rows { result.rows ≡ 0 }
    {
        Open {
            set: key.set(),
            phase: Phase::Receiving,
            rows: 0,
        }
    }

    // What the sizes and the lengths of the lent memories are refused by. The memories are named one by
    // one, as the caller lends them and as the refusals tell them.
    fn check_memory<K: Key, O: Operator>(
        &self,
        key: &K,
        blinding: &O,
        inverse: usize,
        working: usize,
        reply: usize,
    ) -> Result<(), SessionFault>
        ensures { result ≡ refused_by (first (memory_lines self.now.set (K.sizes key.now) (O.order blinding.now) (lent inverse working reply))) }
    {
        let set = key.set();
        if self.set != set {
            return Err(SessionFault::Set);
        }
        if blinding.size() != set.rows {
            return Err(SessionFault::Blinding);
        }
        check_lengths(set.rows, inverse, working)?;
        if reply < bytes_for(set.rows) + 3 {
            return Err(SessionFault::Reply(reply));
        }
        Ok(())
    }

    fn tell_status(&self, reply: &mut [u8]) -> usize
        requires { 4 ≤ length reply.old }
        ensures result { result ≡ length (status_reply (phase_number self.now.phase) self.now.rows) }
        ensures bytes { reply.new ≡ laid (status_reply (phase_number self.now.phase) self.now.rows) reply.old }
    {
        let status = Reply::Status {
            phase: self.phase,
            rows: self.rows as u16,
        };
        status.write(reply)
    }

    // Takes the next row where s B is its unit row: s times the blinding goes into the inverse memory.
    fn take_row<K: Key, O: Operator>(
        &mut self,
        product: &mut Product<K, O>,
        s: &[u8],
        inverse: &mut [u8],
        reply: &mut [u8],
    ) -> Result<usize, SessionFault>
        requires set { (self.old.set.rows ≡ product.old.n) × (self.old.phase ≡ Receiving) }
        requires vector { length s.now ≡ bytes_for self.old.set.rows }
        requires inverse { length inverse.old ≡ self.old.set.rows * bytes_for self.old.set.rows }
        requires reply { 3 ≤ length reply.old }
        ensures done { let R = O.matrix product.old.left.now in
            Stepped self.old.set.rows R (unit_lines self.old.set.rows (blinded product.old.n R (K.checks product.old.key.now)) self.old.rows s.now) (row_reply self.old.rows) 0 self.old.rows inverse.old s.now reply.old result (phase_number self.new.phase) self.new.rows inverse.new reply.new }
        ensures set { self.new.set ≡ self.old.set }
    {
        let n = self.set.rows;
        let i = self.rows;
        check_row(product, s, i)?;
        put_row(inverse, n, i, product.a);
        let phase = if i + 1 == n {
            Phase::Complete
        } else {
            Phase::Receiving
        };
        *self = Open {
            set: self.set,
            phase,
            rows: i + 1,
        };
        let taken = (i + 1) as u16;
        Ok(Reply::Row { taken }.write(reply))
    }

    // Takes a combination v that is not zero where v B is.
    fn take_combination<K: Key, O: Operator>(
        &mut self,
        product: &mut Product<K, O>,
        v: &[u8],
        reply: &mut [u8],
    ) -> Result<usize, SessionFault>
        requires set { (self.old.set.rows ≡ product.old.n) × (self.old.phase ≡ Receiving) }
        requires vector { length v.now ≡ bytes_for self.old.set.rows }
        requires reply { 1 ≤ length reply.old }
        ensures done { let R = O.matrix product.old.left.now in (inverse s : List ℕ) →
            Stepped self.old.set.rows R (combination_lines self.old.set.rows (blinded product.old.n R (K.checks product.old.key.now)) v.now) combination_reply 0 self.old.rows inverse s reply.old result (phase_number self.new.phase) self.new.rows inverse reply.new }
        ensures set { self.new.set ≡ self.old.set }
    {
        check_combination(product, v)?;
        self.phase = Phase::Singular;
        Ok(Reply::Singular.write(reply))
    }

    // A frame in memories that fit; a refusal changes nothing.
    fn step<K: Key, O: Operator>(
        &mut self,
        product: &mut Product<K, O>,
        inverse: &mut [u8],
        frame: &[u8],
        reply: &mut [u8],
    ) -> Result<usize, SessionFault>
        requires set { (self.old.set.rows ≡ product.old.n) × (0 < self.old.set.rows) }
        requires inverse { length inverse.old ≡ self.old.set.rows * bytes_for self.old.set.rows }
        requires reply { bytes_for self.old.set.rows + 3 ≤ length reply.old }
        ensures done { let R = O.matrix product.old.left.now in let B = blinded product.old.n R (K.checks product.old.key.now) in let phase = phase_number self.old.phase in
            Stepped self.old.set.rows R (frame_lines self.old.set.rows B phase self.old.rows frame.now) (granted B phase self.old.rows frame.now) phase self.old.rows inverse.old (row_in frame.now) reply.old result (phase_number self.new.phase) self.new.rows inverse.new reply.new }
        ensures set { self.new.set ≡ self.old.set }
    {
        let n = self.set.rows;
        let frame = read(frame, n)?;
        match (self.phase, frame) {
            (_, Frame::Status) => Ok(self.tell_status(reply)),
            (Phase::Receiving, Frame::Column { index }) if index < n => send_column(
                product, index, reply,
            ),
            (Phase::Receiving, Frame::Column { index }) => Err(SessionFault::Index(index)),
            (Phase::Receiving, Frame::Row { index, body }) if index == self.rows => self.take_row(
                product, body, inverse, reply,
            ),
            (Phase::Receiving, Frame::Row { .. }) => Err(SessionFault::Turn(self.rows)),
            (Phase::Receiving, Frame::Combination { body }) => self.take_combination(
                product, body, reply,
            ),
            // an arm for each: with one for both, the proof has the kinds of frames to take apart again
            (Phase::Complete, _) => Err(SessionFault::Phase(Phase::Complete.number())),
            (Phase::Singular, _) => Err(SessionFault::Phase(Phase::Singular.number())),
        }
    }

    // Answers one frame; all memory is lent.
    pub fn answer<K: Key, O: Operator>(
        &mut self,
        key: &K,
        blinding: &O,
        inverse: &mut [u8],
        working: &mut [u8],
        frame: &[u8],
        reply: &mut [u8],
    ) -> Answer
        ensures done { Answered self.old.set (secret (K.sizes key.now) (K.checks key.now) (O.order blinding.now) (O.matrix blinding.now)) (phase_number self.old.phase) self.old.rows inverse.old (lent (length inverse.old) (length working.old) (length reply.old)) frame.now reply.old result (phase_number self.new.phase) self.new.rows inverse.new reply.new }
        ensures set { self.new.set ≡ self.old.set }
        ensures zero { AllZero working.new }
    {
        let guard = Wiped { bytes: working };
        let fits = self.check_memory(key, blinding, inverse.len(), guard.bytes.len(), reply.len());
        if let Err(fault) = fits {
            return Answer {
                length: 0,
                fault: Some(fault),
            };
        }
        let mut product = Product::new(blinding, key, guard.bytes);
        match self.step(&mut product, inverse, frame, reply) {
            Ok(length) => Answer {
                length,
                fault: None,
            },
            Err(fault) => refuse(reply, fault),
        }
    }

    // A ready session where all rows were taken, else this one back.
    pub fn close(self) -> Result<Ready, StillOpen>
        ensures { MatchResult result (λ y. (None ≡ first (closing_lines (phase_number self.phase) self.rows)) × (y.set ≡ self.set) × (y.sent ≡ 0)) (λ e. (Some e.fault ≡ first (closing_lines (phase_number self.phase) self.rows)) × (e.session ≡ self)) }
    {
        match self.phase {
            Phase::Receiving => {
                let rows = self.rows;
                Err(StillOpen {
                    session: self,
                    fault: SessionFault::Receiving(rows),
                })
            }
            Phase::Singular => Err(StillOpen {
                session: self,
                fault: SessionFault::Singular,
            }),
            Phase::Complete => Ok(Ready {
                set: self.set,
                sent: 0,
            }),
        }
    }
}
