// Solving over any field: a square table of lent cells is inverted, or shown to have no inverse.
// A second table ends as the only inverse, or one row of it as a combination of the first's rows
// that vanishes; the matrix decides which. Fields are crate field's, the theory is crate matrix's.
#![tactic(auto)]

ghost use Rattle.std.specs.Prelude.{◌≡◌, ℕ, ◌+◌, ◌*◌, ◌<◌, ◌≤◌, length, ◌≢◌, slice_index_or, MatchOption, bit_xor};
ghost use Rattle.solver.specs.Cells.{largest, entries, Clean, element, entry};
ghost use Rattle.solver.specs.Answers.{Answer, Solves, told_solving};
ghost use Rattle.matrix.specs.Matrix.{Mat, Same, delta, add_row, scale_row, swap_rows};

use field::Field;
use refusal::Fault;
use refusal::told::{Layer, Refusal};

// The largest size of a table that can be solved.
pub const LARGEST: usize = 1664;

// A table of size by size cells, row after row, over a lent slice.
#[derive(Drop)]
pub struct Table<'a, F: Field> {
    cells: &'a mut [F::Cell],
    size: usize,
}

#[derive(Clone, Copy, Debug, PartialEq, Eq)]
pub enum Solved {
    Inverse,
    // the row of the second table that holds the combination
    Dependent(usize),
}

#[derive(Clone, Copy, Debug, PartialEq, Eq)]
pub enum SolveFault {
    // the size is 0 or above 1,664, or a table is not of that size
    Size(usize),
}

impl Fault for SolveFault {
    ghost told = { told_solving };

    fn refusal(self) -> Refusal {
        match self {
            SolveFault::Size(n) => Refusal::new(Layer::Solving, 29, n),
        }
    }
}

impl<'a, F: Field> Table<'a, F> {
    // A table over these cells; solving checks that they fit the size.
    pub fn new(cells: &'a mut [F::Cell], size: usize) -> Table<'a, F>
        ensures size { result.size ≡ size }
        ensures cells { result.cells.now ≡ cells.old }
        ensures same { result.cells.ghost_name ≡ cells.entry.ghost_name }
    {
        Table { cells, size }
    }

    // Makes the second table the inverse of this one, or a row of it a combination of this one's
    // rows that vanishes. This table is used up: what it then holds is not told.
    pub fn solve(&mut self, second: &mut Table<'_, F>) -> Result<Solved, SolveFault>
        ensures sizes { (self.new.size ≡ self.old.size) × (second.new.size ≡ second.old.size) }
        ensures same { (self.new.cells.ghost_name ≡ self.old.cells.ghost_name) × (second.new.cells.ghost_name ≡ second.old.cells.ghost_name) }
        ensures answer { Answer F.arith F.WIDTH F.number self.old.size second.old.size self.old.cells.now second.old.cells.now self.new.cells.now second.new.cells.now result }
    {
        let n = self.size;
        if n == 0 || n > LARGEST {
            return Err(SolveFault::Size(n));
        }
        if second.size != n || self.cells.len() != n * n || second.cells.len() != n * n {
            return Err(SolveFault::Size(n));
        }
        Ok(eliminate::<F>(self.cells, second.cells, n))
    }
}

// Eliminates the first table, with each step made in the second too, which begins as the identity.
fn eliminate<F: Field>(first: &mut [F::Cell], second: &mut [F::Cell], n: usize) -> Solved
    requires size { (length first.old ≡ n * n) × (length second.old ≡ n * n) }
    requires small { n ≤ largest }
    ensures solves { Solves F.arith n (entries F.WIDTH F.number n first.old) (entries F.WIDTH F.number n second.new) result }
    ensures clean { Clean F.WIDTH F.number first.new × Clean F.WIDTH F.number second.new }
{
    let mut table: Square<'_, F> = Square::cleaned(first, n);
    let mut inverse: Square<'_, F> = Square::cleaned(second, n);
    inverse.make_identity();
    let rank = table.do_columns(&mut inverse);
    if rank < n {
        Solved::Dependent(rank)
    } else {
        Solved::Inverse
    }
}

// A table of n by n cells, row after row, in which no cell has bits above its element.
// Not a Table: that takes cells and a size as they come, and refuses by them; here they fit.
// Each method that writes says that order and lent cells stay, for `&mut self` does not say it; a
// column is a number to each, and a type for it would have to be held to the order just so.
#[derive(Drop)]
struct Square<'a, F: Field> {
    cells: &'a mut [F::Cell],
    order: usize,
    ghost square: { length cells.now ≡ order * order },
    ghost small: { order ≤ largest },
    ghost clean: { Clean F.WIDTH F.number cells.now },
}

impl<'a, F: Field> Square<'a, F> {
    ghost use Rattle.solver.specs.Squares.{matrix, InPlace, Reaches, Clears};

    // The table of the elements that the cells mean.
    fn cleaned(cells: &'a mut [F::Cell], order: usize) -> Square<'a, F>
        requires size { length cells.old ≡ order * order }
        requires small { order ≤ largest }
        ensures place { (result.order ≡ order) × (result.cells.ghost_name ≡ cells.entry.ghost_name) }
        ensures made { (i j : ℕ) → matrix result i j ≡ entries F.WIDTH F.number order cells.old i j }
    {
        make_clean::<F>(cells);
        Square { cells, order }
    }

    // Writes the identity over the cells.
    fn make_identity(&mut self)
        ensures place { InPlace self.old self.new }
        ensures made { Same self.old.order (matrix self.new) delta }
    {
        let n = self.order;
        let cells = &mut *self.cells;
        make_zero::<F>(cells);
        // By number: after iter_mut().step_by(n + 1), or chunks_exact_mut(n), a proof knows nothing of
        // what was written.
        for i in 0..n {
            cells[i * n + i] = F::of(1);
        }
    }

    // Deals with every column, each step made in the table beside too, and gives the number of pivots.
    // The two tables have no type: the kit's borrow checker does not cover a struct of two borrowed
    // tables whose cells are of the field's type, and of two owned ones the proof is not told what the
    // slices hold when they are given back.
    fn do_columns(&mut self, beside: &mut Square<'_, F>) -> usize
        requires alike { beside.old.order ≡ self.old.order }
        ensures place { InPlace self.old self.new × InPlace beside.old beside.new }
        ensures state { (M : Mat) → Reaches self.old beside.old M 0 0 → Reaches self.new beside.new M self.old.order result }
    {
        let mut r = 0;
        // A step takes a column's number in two tables, so there is no slice to go over.
        for c in 0..self.order {
            if let Some(p) = self.find_pivot(c, r) {
                self.swap_rows(r, p);
                beside.swap_rows(r, p);
                let v = F::inverse(self.get(r, c));
                self.scale_row(r, v);
                beside.scale_row(r, v);
                self.clear_column(beside, c, r);
                r += 1;
            }
        }
        r
    }

    // Clears column c in every row but r, whose entry there is 1.
    fn clear_column(&mut self, beside: &mut Square<'_, F>, c: usize, r: usize)
        requires within { (c < self.old.order) × (r < self.old.order) }
        requires alike { beside.old.order ≡ self.old.order }
        ensures place { InPlace self.old self.new × InPlace beside.old beside.new }
        ensures state { (M : Mat) → Clears self.old beside.old M c r 0 → Reaches self.new beside.new M (c + 1) (r + 1) }
    {
        // By number, as the columns.
        for i in 0..self.order {
            let s = self.get(i, c);
            if i != r && !F::is_zero(s) {
                self.add_row(i, r, s);
                beside.add_row(i, r, s);
            }
        }
    }

    // Row i, column j.
    fn get(&self, i: usize, j: usize) -> F::Cell
        requires within { (i < self.now.order) × (j < self.now.order) }
        ensures { element F.WIDTH F.number result ≡ matrix self.now i j }
    {
        self.cells[i * self.order + j]
    }

    // The first row from r on whose entry in column c is not zero.
    fn find_pivot(&self, c: usize, r: usize) -> Option<usize>
        requires within { c < self.now.order }
        ensures { MatchOption result ((a : ℕ) → r ≤ a → a < self.now.order → matrix self.now a c ≡ 0) (λ p. (r ≤ p) × (p < self.now.order) × (matrix self.now p c ≢ 0) × ((a : ℕ) → r ≤ a → a < p → matrix self.now a c ≡ 0)) }
    {
        (r..self.order).find(|p| !F::is_zero(self.get(*p, c)))
    }

    fn swap_rows(&mut self, i: usize, r: usize)
        requires within { (i ≤ r) × (r < self.old.order) }
        ensures place { InPlace self.old self.new }
        ensures made { Same self.old.order (matrix self.new) (swap_rows i r (matrix self.old)) }
    {
        if i == r {
            return;
        }
        let n = self.order;
        let cells = &mut *self.cells;
        let (low, high) = cells.split_at_mut(r * n);
        low[i * n..i * n + n].swap_with_slice(&mut high[..n]);
    }

    // Multiplies row i by s.
    fn scale_row(&mut self, i: usize, s: F::Cell)
        requires within { i < self.old.order }
        ensures place { InPlace self.old self.new }
        ensures made { Same self.old.order (matrix self.new) (scale_row F.arith i (element F.WIDTH F.number s) (matrix self.old)) }
    {
        let n = self.order;
        scale::<F>(&mut self.cells[i * n..i * n + n], s);
    }

    // Adds s times row r to row i.
    fn add_row(&mut self, i: usize, r: usize, s: F::Cell)
        requires within { (i < self.old.order) × (r < self.old.order) }
        requires apart { i ≢ r }
        ensures place { InPlace self.old self.new }
        ensures made { Same self.old.order (matrix self.new) (add_row F.arith i r (element F.WIDTH F.number s) (matrix self.old)) }
    {
        let n = self.order;
        let cells = &mut *self.cells;
        if i < r {
            let (low, high) = cells.split_at_mut(r * n);
            add_scaled::<F>(&mut low[i * n..i * n + n], &high[..n], s);
        } else {
            let (low, high) = cells.split_at_mut(i * n);
            add_scaled::<F>(&mut high[..n], &low[r * n..r * n + n], s);
        }
    }
}

// Multiplies a row by s.
fn scale<F: Field>(row: &mut [F::Cell], s: F::Cell)
    ensures made { (k : ℕ) → k < length row.old → entry F.WIDTH F.number row.new k ≡ F.arith.mul (element F.WIDTH F.number s) (entry F.WIDTH F.number row.old k) }
    ensures clean { Clean F.WIDTH F.number row.new }
{
    for x in row.iter_mut() {
        *x = F::times(s, *x);
    }
}

// Adds s times another row to a row. The other is copied first: of two lent rows the compiler does
// not know that they are apart, and would add cell by cell. Solving a table of 1,664 rows of bits
// would then take 3 s instead of 0.5 s, measured on a Xeon at 2.5 GHz.
fn add_scaled<F: Field>(row: &mut [F::Cell], other: &[F::Cell], s: F::Cell)
    requires alike { length row.old ≡ length other.now }
    requires small { length other.now ≤ largest }
    ensures made { (k : ℕ) → k < length row.old → entry F.WIDTH F.number row.new k ≡ bit_xor (entry F.WIDTH F.number row.old k) (F.arith.mul (element F.WIDTH F.number s) (entry F.WIDTH F.number other.now k)) }
    ensures clean { Clean F.WIDTH F.number row.new }
{
    let mut copy = [F::of(0); LARGEST];
    // Not by copy_from_slice: that a slice of so many cells fits in memory is not known of every cell.
    for (k, x) in other.iter().enumerate() {
        copy[k] = *x;
    }
    // By number: after a loop over iter_mut().zip(..) a proof knows nothing of what was written.
    for (j, x) in row.iter_mut().enumerate() {
        *x = F::plus(*x, F::times(s, copy[j]));
    }
}

// Takes off the bits above the elements.
fn make_clean<F: Field>(cells: &mut [F::Cell])
    ensures made { (n i j : ℕ) → entries F.WIDTH F.number n cells.new i j ≡ entries F.WIDTH F.number n cells.old i j }
    ensures clean { Clean F.WIDTH F.number cells.new }
{
    for x in cells.iter_mut() {
        *x = F::of(F::get(*x));
    }
}

// Not by fill: that a Clone of a cell cannot fail is not known of every cell.
fn make_zero<F: Field>(cells: &mut [F::Cell])
    ensures zero { (k : ℕ) (d : F.Cell) → k < length cells.new → F.number (slice_index_or cells.new k d) ≡ 0 }
{
    for x in cells.iter_mut() {
        *x = F::of(0);
    }
}
