// Does a public key belong to a private key? The public matrix is made anew, column by column, from the private
// check matrix and the inverse of its block, and compared with the published bytes. A tool of the host's side: it
// takes the memory that it needs, and keeps the inverse of a secret block in it.
#![tactic(auto)]

ghost use Rattle.std.specs.Prelude.{◌≡◌, ℕ, ◌+◌, ◌*◌, ◌/◌, ◌%◌, ◌<◌, ◌≤◌, length, ◌≢◌, IfOk, MatchOption, Ok, slice_index, true, false};
ghost use Rattle.galois.specs.Bit.{bits};
ghost use Rattle.matrix.specs.Matrix.{Same};
ghost use Rattle.bits.specs.Bits.{bytes_for, bits_of, of_rows, pack};
ghost use Rattle.sink.specs.Store.{key_matrix};
ghost use Rattle.solver.specs.Answers.{Solves};
ghost use Rattle.solver.specs.declared.Solved.TheVariants.{Inverse};
ghost use Rattle.host.specs.Frames.{bit_table, with_cells};
ghost use Rattle.audit.specs.Verdicts.{SameColumns, Padless, Differs, Long, Padded, Tells};
ghost use Rattle.audit.specs.declared.verdict.Verdict.{Verdict};
ghost use Rattle.audit.specs.declared.verdict.Verdict.TheVariants.{Length};
ghost use Rattle.audit.specs.Solving.{Inverted, product, padded_bit};

pub mod verdict;

use bits::source::{BitSource, write_bits};
use bits::{are_bytes, bit_of, bytes_for, get_bit};
use field::Bit;
use key::Key;
use key::sizes::Sizes;
use operator::Operator;
use operator::stored::StoredMatrix;
use solver::{Solved, Table};
use std::alloc::{AllocError, Global};
use verdict::Verdict;

// Puts a packed column into a table of bits, one cell to each bit.
fn keep_column(n: usize, j: usize, column: &[u8], table: &mut [u8])
    requires table { length table.old ≡ n * n }
    requires within { (j < n) × (n ≤ 1664) }
    ensures { table.new ≡ with_cells n j n (bits_of column.now) table.old }
{
    // By number: after chunks_exact_mut(n) a proof knows nothing of what was written.
    for i in 0..n {
        table[i * n + j] = get_bit(column, i);
    }
}

// Writes column j of the check matrix.
fn check_column<K: Key>(key: &K, j: usize, column: &mut [u8])
    requires at { j < (K.sizes key.now).rows + (K.sizes key.now).rest }
    requires room { length column.old ≡ bytes_for (K.sizes key.now).rows }
    ensures { column.new ≡ pack (K.sizes key.now).rows (λ i. K.checks key.now i j) }
{
    match key.column(j, column) {
        Ok(()) => {}
        // the column is there, and fits
        Err(_) => unreachable!(),
    }
}

// Puts the check block into a table.
fn load<K: Key>(key: &K, n: usize, table: &mut [u8], column: &mut [u8])
    requires size { n ≡ (K.sizes key.now).rows }
    requires table { length table.old ≡ n * n }
    requires room { length column.old ≡ bytes_for n }
    ensures { Same n (bit_table n table.new) (K.checks key.now) }
{
    for j in 0..n {
        check_column(key, j, column);
        keep_column(n, j, column, table);
    }
}

// Solves over bits.
fn solve_bits(first: &mut [u8], second: &mut [u8], n: usize) -> Solved
    requires tables { (length first.old ≡ n * n) × (length second.old ≡ n * n) }
    requires small { (0 < n) × (n ≤ 1664) }
    ensures { Solves bits n (bit_table n first.old) (bit_table n second.new) result }
{
    let mut a = Table::<Bit>::new(first, n);
    let mut b = Table::<Bit>::new(second, n);
    match a.solve(&mut b) {
        Ok(solved) => solved,
        // the tables fit
        Err(_) => unreachable!(),
    }
}

// Cell p of a table.
fn cell(cells: &[u8], p: usize) -> u8
    ensures { result ≡ slice_index cells.now p }
{
    cells.get(p).copied().unwrap_or(0)
}

// The rows of an n by n table as one vector, each padded to whole bytes.
#[derive(Drop)]
struct Rows<'a> {
    cells: &'a [u8],
    n: usize,
    ghost square: { length cells.now ≡ n * n },
    ghost some: { (0 < n) × (n ≤ 1664) },
}

impl BitSource for Rows<'_> {
    ghost vector = { λ s. padded_bit s.n s.cells.now };

    fn bit(&self, i: usize) -> u8 {
        let width = 8 * bytes_for(self.n);
        let (row, j) = (i / width, i % width);
        if j < self.n {
            cell(self.cells, row * self.n + j) % 2
        } else {
            0
        }
    }
}

// Packs the rows of a table.
fn pack_rows(n: usize, cells: &[u8], rows: &mut [u8])
    requires square { length cells.now ≡ n * n }
    requires some { (0 < n) × (n ≤ 1664) }
    requires room { length rows.old ≡ n * bytes_for n }
    ensures { (i j : ℕ) → i < n → j < n → of_rows (bytes_for n) rows.new i j ≡ bit_table n cells.now i j }
{
    let all = Rows { cells, n };
    write_bits(&all, 8 * (n * bytes_for(n)), rows);
}

// Writes the packed rows of the inverse of the check block, where it has one, by way of two tables and a column.
fn solve_block<K: Key>(
    key: &K,
    first: &mut [u8],
    second: &mut [u8],
    column: &mut [u8],
    rows: &mut [u8],
) -> Solved
    requires first { length first.old ≡ (K.sizes key.now).rows * (K.sizes key.now).rows }
    requires second { length second.old ≡ (K.sizes key.now).rows * (K.sizes key.now).rows }
    requires column { length column.old ≡ bytes_for (K.sizes key.now).rows }
    requires room { length rows.old ≡ (K.sizes key.now).rows * bytes_for (K.sizes key.now).rows }
    ensures { Inverted (K.sizes key.now).rows (K.checks key.now) rows.new result }
{
    let n = key.set().rows;
    load(key, n, first, column);
    let solved = solve_bits(first, second, n);
    pack_rows(n, second, rows);
    solved
}

// The same in new memory.
fn invert<K: Key>(heap: Global, key: &K, rows: &mut [u8]) -> Result<Solved, AllocError>
    requires room { length rows.old ≡ (K.sizes key.now).rows * bytes_for (K.sizes key.now).rows }
    ensures { IfOk result (Inverted (K.sizes key.now).rows (K.checks key.now) rows.new) }
{
    let n = key.set().rows;
    let mut first = vec![in heap; 0u8; n * n]?;
    let mut second = vec![in heap; 0u8; n * n]?;
    let mut column = vec![in heap; 0u8; bytes_for(n)]?;
    Ok(solve_block(key, &mut first, &mut second, &mut column, rows))
}

// Bit j of row i of rows of `width` bytes.
#[tactic(auto, unfolding(bits::specs::Bits::of_rows))]
fn row_bit(rows: &[u8], width: usize, i: usize, j: usize) -> u8
    requires inside { i * width + j / 8 < length rows.now }
    ensures value { result ≡ of_rows width rows.now i j }
{
    bit_of(rows[i * width + j / 8], j % 8)
}

// The first row of column c of the published rows that is not `own`'s.
fn wrong_row(published: &[u8], n: usize, k: usize, c: usize, own: &[u8]) -> Option<usize>
    requires long { length published.now ≡ n * bytes_for k }
    requires column { (c < k) × (k ≤ 8192) }
    ensures { MatchOption result
        ((a : ℕ) → a < n → key_matrix k published.now a c ≡ bits_of own.now a)
        (λ i. (i < n) × ((a : ℕ) → a < i → key_matrix k published.now a c ≡ bits_of own.now a) × (key_matrix k published.now i c ≢ bits_of own.now i)) }
{
    for i in 0..n {
        if row_bit(published, bytes_for(k), i, c) != get_bit(own, i) {
            return Some(i);
        }
    }
    None
}

// Whether the bits past the k of row i are 0.
fn is_clean(published: &[u8], n: usize, k: usize, i: usize) -> bool
    requires long { length published.now ≡ n * bytes_for k }
    requires row { (i < n) × (k ≤ 8192) }
    ensures yes { result ≡ true → Padless k published.now i }
    ensures no { result ≡ false → Padless k published.now i → ⊥ }
{
    let l = bytes_for(k);
    for j in k..8 * l {
        if row_bit(published, l, i, j) != 0 {
            return false;
        }
    }
    true
}

// The first of n rows of which a pad bit is not 0.
fn dirty_row(published: &[u8], n: usize, k: usize) -> Option<usize>
    requires long { length published.now ≡ n * bytes_for k }
    requires small { k ≤ 8192 }
    ensures { MatchOption result ((a : ℕ) → a < n → Padless k published.now a) (Padded n k published.now) }
{
    for i in 0..n {
        if !is_clean(published, n, k, i) {
            return Some(i);
        }
    }
    None
}

// Column c of the public matrix, by way of the check matrix's column.
fn make_column<K: Key>(key: &K, inverse: &[u8], c: usize, column: &mut [u8], own: &mut [u8])
    requires at { c < (K.sizes key.now).rest }
    requires inverse { length inverse.now ≡ (K.sizes key.now).rows * bytes_for (K.sizes key.now).rows }
    requires first { length column.old ≡ bytes_for (K.sizes key.now).rows }
    requires second { length own.old ≡ bytes_for (K.sizes key.now).rows }
    ensures { own.new ≡ pack (K.sizes key.now).rows (λ i. product (K.sizes key.now).rows inverse.now (K.checks key.now) i c) }
{
    let n = key.set().rows;
    let stored = StoredMatrix::new(n, inverse);
    check_column(key, n + c, column);
    match stored.column_action(column, own) {
        Ok(()) => {}
        // both are packed columns
        Err(_) => unreachable!(),
    }
}

// The first column that is wrong, and its first wrong row.
fn wrong_bit<K: Key>(
    key: &K,
    inverse: &[u8],
    published: &[u8],
    column: &mut [u8],
    own: &mut [u8],
) -> Option<(usize, usize)>
    requires inverse { length inverse.now ≡ (K.sizes key.now).rows * bytes_for (K.sizes key.now).rows }
    requires long { Long (K.sizes key.now) published.now }
    requires first { length column.old ≡ bytes_for (K.sizes key.now).rows }
    requires second { length own.old ≡ bytes_for (K.sizes key.now).rows }
    ensures { let s = K.sizes key.now in let T = product s.rows inverse.now (K.checks key.now) in
        MatchOption result (SameColumns s.rows s.rest published.now T s.rest) (λ p. Differs s.rows s.rest published.now T p.0 p.1) }
{
    let Sizes { rows: n, rest: k } = key.set();
    for c in 0..k {
        make_column(key, inverse, c, column, own);
        if let Some(i) = wrong_row(published, n, k, c, own) {
            return Some((c, i));
        }
    }
    None
}

// The verdict where the inverse of the block is known, and the length is right.
fn compare<K: Key>(
    key: &K,
    inverse: &[u8],
    published: &[u8],
    column: &mut [u8],
    own: &mut [u8],
) -> Verdict
    requires inverse { length inverse.now ≡ (K.sizes key.now).rows * bytes_for (K.sizes key.now).rows }
    requires undoes { Inverted (K.sizes key.now).rows (K.checks key.now) inverse.now Inverse }
    requires long { Long (K.sizes key.now) published.now }
    requires first { length column.old ≡ bytes_for (K.sizes key.now).rows }
    requires second { length own.old ≡ bytes_for (K.sizes key.now).rows }
    ensures { Tells (K.sizes key.now) (K.checks key.now) published.now result }
{
    are_bytes(published);
    let Sizes { rows: n, rest: k } = key.set();
    if let Some((column, row)) = wrong_bit(key, inverse, published, column, own) {
        return Verdict::Wrong { column, row };
    }
    match dirty_row(published, n, k) {
        Some(row) => Verdict::Pad { row },
        None => Verdict::Right,
    }
}

// The verdict where the length is right, by way of memory for the inverse and two columns.
fn judge<K: Key>(
    heap: Global,
    key: &K,
    published: &[u8],
    inverse: &mut [u8],
    column: &mut [u8],
    own: &mut [u8],
) -> Result<Verdict, AllocError>
    requires long { Long (K.sizes key.now) published.now }
    requires inverse { length inverse.old ≡ (K.sizes key.now).rows * bytes_for (K.sizes key.now).rows }
    requires first { length column.old ≡ bytes_for (K.sizes key.now).rows }
    requires second { length own.old ≡ bytes_for (K.sizes key.now).rows }
    ensures { IfOk result (Tells (K.sizes key.now) (K.checks key.now) published.now) }
{
    match invert(heap, key, inverse)? {
        Solved::Inverse => Ok(compare(key, inverse, published, column, own)),
        Solved::Dependent(_) => Ok(Verdict::NoKey),
    }
}

// Whether the published bytes are the public key of a private key, and what is wrong if they are not. Bytes of
// another length are told so before any memory is taken.
pub fn check<K: Key>(heap: Global, key: &K, published: &[u8]) -> Result<Verdict, AllocError>
    ensures tells { IfOk result (Tells (K.sizes key.now) (K.checks key.now) published.now) }
    ensures only { IfOk result (λ v. (u : Verdict) → Tells (K.sizes key.now) (K.checks key.now) published.now u → u ≡ v) }
    ensures misfit { (Long (K.sizes key.now) published.now → ⊥) → result ≡ Ok (Length (length published.now)) }
{
    let Sizes { rows: n, rest: k } = key.set();
    if published.len() != n * bytes_for(k) {
        return Ok(Verdict::Length(published.len()));
    }
    let l = bytes_for(n);
    let mut inverse = vec![in heap; 0u8; n * l]?;
    let mut column = vec![in heap; 0u8; l]?;
    let mut own = vec![in heap; 0u8; l]?;
    judge(heap, key, published, &mut inverse, &mut column, &mut own)
}
