// Our host: it inverts the blinded block of a card, by the card's columns, and sends the rows or a combination.
// It is a step machine: a frame goes out, the reply comes in. Memory is lent for each step, and the transport
// is the caller's. Solving is crate solver's; what a card answers is crate session's.
#![tactic(auto)]

ghost use Rattle.std.specs.Prelude.{◌≡◌, ℕ, ◌+◌, ◌*◌, ◌%◌, ◌<◌, ◌≤◌, true, false, cond, List, length, Some, None, Ok, Err, MatchOption, drop, IsOk, IfOk, IfSome, slice_index};
ghost use Rattle.galois.specs.Bit.{bits};
ghost use Rattle.matrix.specs.Matrix.{Mat, Els};
ghost use Rattle.bits.specs.Bits.{bytes_for, bits_of, pack};
ghost use Rattle.bits.specs.Bytes.{laid};
ghost use Rattle.params.specs.Sets.{named};
ghost use Rattle.solver.specs.Answers.{Solves};
ghost use Rattle.solver.specs.Cells.{Clean};
ghost use Rattle.host.specs.Frames.{bit_table, column_frame, row_frame, combination_frame, is_column, is_status, next_row, with_cells};
ghost use Rattle.host.specs.Stages.{within, after_column, after_row, after_status};
ghost use Rattle.host.specs.Steps.{Spoken, Heard};
ghost use Rattle.host.specs.Meaning.{Knows, Speaks, RepliedBy, Learns};
ghost use Rattle.host.specs.Faults.{told_host};
ghost use Rattle.host.specs.declared.fault.HostFault.TheVariants.{Set, Reply};
ghost use Rattle.host.specs.declared.stage.Stage.TheVariants.{Status, Done};

pub mod fault;
pub mod stage;

use bits::source::{BitSource, write_bits};
use bits::{bytes_for, get_bit};
use fault::HostFault;
use field::Bit;
use params::find_set;
use params::set::SetFault;
use refusal::Fault;
use refusal::told::{Layer, Refusal};
use solver::{Solved, Table};
use stage::Stage;

// By hand, since `new` promises which error its `?` gives.
impl From<SetFault> for HostFault {
    ghost from_gives = { λ e r. r ≡ Set e };

    fn from(e: SetFault) -> HostFault {
        HostFault::Set(e)
    }
}

impl Fault for HostFault {
    ghost told = { told_host };

    fn refusal(self) -> Refusal {
        match self {
            HostFault::Set(fault) => fault.refusal(),
            HostFault::Length | HostFault::Reply => Refusal::new(Layer::Host, 30, 0),
        }
    }
}

// A row of a table of bits, one cell to each bit.
#[derive(Drop)]
struct Row<'a> {
    cells: &'a [u8],
}

impl BitSource for Row<'_> {
    ghost vector = { λ s i. slice_index s.cells.now i % 2 };

    fn bit(&self, i: usize) -> u8 {
        self.cells.get(i).copied().unwrap_or(0) % 2
    }
}

// Writes the head of a frame.
fn put(frame: &mut [u8], head: &[u8])
    requires { length head.now ≤ length frame.old }
    ensures { frame.new ≡ laid head.now frame.old }
{
    frame[..head.len()].copy_from_slice(head);
}

// Indices are below 1,664, so each cast that makes two bytes of one is exact.
fn write_column_frame(j: usize, frame: &mut [u8])
    requires index { j < 1664 }
    requires room { 3 ≤ length frame.old }
    ensures { frame.new ≡ laid (column_frame j) frame.old }
{
    let [low, high] = (j as u16).to_le_bytes();
    put(frame, &[0x11, low, high]);
}

// The second table, from which rows and the combination are sent.
#[derive(Drop)]
struct SecondTable<'a> {
    cells: &'a [u8],
    n: usize,
    ghost square: { length cells.now ≡ n * n },
    ghost small: { n ≤ 1664 },
}

impl SecondTable<'_> {
    // Writes row i, packed.
    fn write_row(&self, i: usize, out: &mut [u8])
        requires within { i < self.now.n }
        requires room { length out.old ≡ bytes_for self.now.n }
        ensures { out.new ≡ pack self.now.n (bit_table self.now.n self.now.cells.now i) }
    {
        let n = self.n;
        let row = Row {
            cells: &self.cells[i * n..i * n + n],
        };
        write_bits(&row, n, out);
    }

    fn write_row_frame(&self, i: usize, frame: &mut [u8])
        requires within { i < self.now.n }
        requires room { length frame.old ≡ bytes_for self.now.n + 3 }
        ensures { frame.new ≡ laid (row_frame self.now.n i (bit_table self.now.n self.now.cells.now i)) frame.old }
    {
        let [low, high] = (i as u16).to_le_bytes();
        put(frame, &[0x12, low, high]);
        self.write_row(i, &mut frame[3..]);
    }

    fn write_combination_frame(&self, r: usize, frame: &mut [u8])
        requires within { r < self.now.n }
        requires room { length frame.old ≡ bytes_for self.now.n + 3 }
        ensures { frame.new ≡ laid (combination_frame self.now.n (bit_table self.now.n self.now.cells.now r)) frame.old }
    {
        put(frame, &[0x13]);
        let end = 1 + bytes_for(self.n);
        self.write_row(r, &mut frame[1..end]);
    }
}

// A number from its two bytes.
fn word(low: u8, high: u8) -> usize
    ensures { result ≡ low + 256 * high }
{
    usize::from(u16::from_le_bytes([low, high]))
}

// The column in the reply to a column frame, where it is the one awaited.
fn column_in(n: usize, j: usize, reply: &[u8]) -> Option<&[u8]>
    requires { n ≤ 1664 }
    ensures { MatchOption result (is_column n j reply.now ≡ false) (λ v. (is_column n j reply.now ≡ true) × (v.now ≡ drop 3 reply.now)) }
{
    match reply {
        [0x21, low, high, column @ ..] if column.len() == bytes_for(n) && word(*low, *high) == j =>
            Some(column),
        _ => None,
    }
}

// The next row in the reply to a status frame, where it is one awaited.
fn next_row_in(n: usize, reply: &[u8]) -> Option<usize>
    ensures { result ≡ cond (is_status n reply.now) (Some (next_row reply.now)) None }
{
    match reply {
        [0x24, 0, low, high] => Some(word(*low, *high)).filter(|next| *next < n),
        _ => None,
    }
}

// Puts a column into the first table.
fn keep_column(n: usize, j: usize, column: &[u8], first: &mut [u8])
    requires table { length first.old ≡ n * n }
    requires within { (j < n) × (n ≤ 1664) }
    ensures { first.new ≡ with_cells n j n (bits_of column.now) first.old }
{
    // By number: after chunks_exact_mut(n) a proof knows nothing of what was written.
    for i in 0..n {
        first[i * n + j] = get_bit(column, i);
    }
}

// Solves over bits.
fn solve_bits(first: &mut [u8], second: &mut [u8], n: usize) -> Solved
    requires tables { (length first.old ≡ n * n) × (length second.old ≡ n * n) }
    requires small { (0 < n) × (n ≤ 1664) }
    ensures solves { Solves bits n (bit_table n first.old) (bit_table n second.new) result }
    ensures clean { Clean 1 (λ x. x) second.new }
{
    let mut a = Table::<Bit>::new(first, n);
    let mut b = Table::<Bit>::new(second, n);
    match a.solve(&mut b) {
        Ok(solved) => solved,
        // the tables fit
        Err(_) => unreachable!(),
    }
}

fn after_column(n: usize, j: usize) -> Stage
    requires { j < n }
    ensures is { result ≡ after_column n j }
    ensures bounds { within n result ≡ true }
{
    if j + 1 == n {
        Stage::Full
    } else {
        Stage::Columns(j + 1)
    }
}

fn after_row(n: usize, i: usize) -> Stage
    requires { i < n }
    ensures is { result ≡ after_row n i }
    ensures bounds { within n result ≡ true }
{
    if i + 1 == n {
        Stage::Done
    } else {
        Stage::Rows(i + 1)
    }
}

fn after_status(solved: Solved, next: usize) -> Stage
    ensures is { result ≡ after_status solved next }
    ensures bounds { (n : ℕ) → within n (Status solved) ≡ true → next < n → within n result ≡ true }
{
    match solved {
        Solved::Inverse => Stage::Rows(next),
        Solved::Dependent(r) => Stage::Combination(r),
    }
}

// A host between two frames.
#[derive(Drop)]
pub struct Host {
    size: usize,
    stage: Stage,
    ghost some: { (0 < size) × (size ≤ 1664) },
    ghost bounds: { within size stage ≡ true },
}

impl Host {
    ghost use Rattle.host.specs.Begins.{Begins};

    // A host for a set's cards, which asks for the first column.
    pub fn new(name: &str) -> Result<Host, HostFault>
        ensures does { Begins (named name.now) result }
        ensures means { IfOk result (λ h. (B : Mat) (xs ys : List ℕ) → Knows h.size B h.stage xs ys) }
    {
        let set = find_set(name)?;
        Ok(Host {
            size: set.rows(),
            stage: Stage::Columns(0),
        })
    }

    // Writes the next frame and gives its length, None where there is no more to say. The tables have n n
    // cells, of any content at the first call, the frame memory L + 3 bytes.
    pub fn speak(
        &mut self,
        first: &mut [u8],
        second: &mut [u8],
        frame: &mut [u8],
    ) -> Result<Option<usize>, HostFault>
        ensures does { Spoken self.old.size self.old.stage first.old second.old frame.old result self.new.size self.new.stage first.new second.new frame.new }
        ensures means { (B : Mat) → IsOk result → Knows self.old.size B self.old.stage first.old second.old → Speaks self.old.size B self.old.stage result self.new.stage first.new second.new frame.new }
        ensures room { IfOk result (λ o. IfSome o (λ k. k ≤ length frame.new)) }
    {
        self.say(first, second, frame)
    }

    // What `speak` does in each stage. What it means is shown of that, once for all stages.
    fn say(
        &mut self,
        first: &mut [u8],
        second: &mut [u8],
        frame: &mut [u8],
    ) -> Result<Option<usize>, HostFault>
        ensures { Spoken self.old.size self.old.stage first.old second.old frame.old result self.new.size self.new.stage first.new second.new frame.new }
    {
        let n = self.size;
        let l = bytes_for(n);
        if first.len() != n * n || second.len() != n * n || frame.len() != l + 3 {
            return Err(HostFault::Length);
        }
        match self.stage {
            Stage::Columns(j) => {
                write_column_frame(j, frame);
                Ok(Some(3))
            }
            Stage::Full => {
                let solved = solve_bits(first, second, n);
                self.stage = Stage::Status(solved);
                put(frame, &[0x14]);
                Ok(Some(1))
            }
            Stage::Status(_) => {
                put(frame, &[0x14]);
                Ok(Some(1))
            }
            Stage::Rows(i) => {
                SecondTable { cells: second, n }.write_row_frame(i, frame);
                self.stage = after_row(n, i);
                Ok(Some(l + 3))
            }
            Stage::Combination(r) => {
                SecondTable { cells: second, n }.write_combination_frame(r, frame);
                self.stage = Stage::Done;
                Ok(Some(l + 1))
            }
            Stage::Done => Ok(None),
        }
    }

    // The end, after a reply that is not awaited.
    fn refuse(&mut self) -> Result<(), HostFault>
        ensures result { result ≡ Err Reply }
        ensures size { self.new.size ≡ self.old.size }
        ensures stage { self.new.stage ≡ Done }
    {
        self.stage = Stage::Done;
        Err(HostFault::Reply)
    }

    // Hears the reply to the frame. Only the replies to a column and to the status are looked at; after one
    // that is not awaited there is no more to say.
    pub fn hear(&mut self, first: &mut [u8], reply: &[u8]) -> Result<(), HostFault>
        ensures does { Heard self.old.size self.old.stage first.old reply.now result self.new.size self.new.stage first.new }
        ensures means { (B : Mat) (i : ℕ) (ys : List ℕ) → Els bits B → length first.old ≡ self.old.size * self.old.size → i < self.old.size → RepliedBy self.old.size B i self.old.stage reply.now → Knows self.old.size B self.old.stage first.old ys → Learns self.old.size B i self.old.stage result self.new.stage first.new ys }
    {
        self.listen(first, reply)
    }

    // What `hear` does in each stage, as `say`.
    fn listen(&mut self, first: &mut [u8], reply: &[u8]) -> Result<(), HostFault>
        ensures { Heard self.old.size self.old.stage first.old reply.now result self.new.size self.new.stage first.new }
    {
        let n = self.size;
        if first.len() != n * n {
            return Err(HostFault::Length);
        }
        match self.stage {
            Stage::Columns(j) => {
                let Some(column) = column_in(n, j, reply) else {
                    return self.refuse();
                };
                keep_column(n, j, column, first);
                self.stage = after_column(n, j);
                Ok(())
            }
            Stage::Status(solved) => {
                let Some(next) = next_row_in(n, reply) else {
                    return self.refuse();
                };
                self.stage = after_status(solved, next);
                Ok(())
            }
            _ => Ok(()),
        }
    }
}
