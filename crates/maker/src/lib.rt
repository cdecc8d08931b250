// The polynomial maker: from an element of the polynomials over a set's field modulo its F(y), the
// coefficients of the one monic polynomial of degree t over the field that is zero at it.
// What these polynomials are is crate quotient's, solving is crate solver's. Local arrays are cleared at the
// end; the lent tables are the caller's to clear.
#![tactic(auto)]

ghost use Rattle.std.specs.Prelude.{◌≡◌, ℕ, ◌+◌, ◌*◌, ◌%◌, ◌^◌, ◌<◌, length, bit_xor, slice_index};
ghost use Rattle.galois.specs.Gf.{times};
ghost use Rattle.matrix.specs.Matrix.{Same, sum, Elements};
ghost use Rattle.matrix.specs.Search.{found};
ghost use Rattle.params.specs.Sets.{numbers};
ghost use Rattle.goppa.specs.Loading.{entry_in, large};
ghost use Rattle.quotient.specs.Quotient.{Alike, times_y, product, power as power_of};
ghost use Rattle.solver.specs.Cells.{entries, entry};
ghost use Rattle.solver.specs.Answers.{Answer};
ghost use Rattle.maker.specs.Maker.{low_of, lent, held, refused_by, checked, Given, Made, told_maker};
ghost use Rattle.maker.specs.declared.fault.MakerFault.TheVariants.{Set};

pub mod fault;

use fault::MakerFault;
use field::Field;
use goppa::over_field;
use params::find_set;
use params::set::{ParameterSet, SetFault};
use refusal::Fault;
use refusal::told::{Layer, Refusal};
use solver::{SolveFault, Solved, Table};
use std::marker::PhantomData;

// The largest degree t.
const LARGEST: usize = 128;

// By hand, since `make` promises which error its `?` gives.
impl From<SetFault> for MakerFault {
    ghost from_gives = { λ e r. r ≡ Set e };

    fn from(e: SetFault) -> MakerFault {
        MakerFault::Set(e)
    }
}

impl Fault for MakerFault {
    ghost told = { told_maker };

    fn refusal(self) -> Refusal {
        match self {
            MakerFault::Set(fault) => fault.refusal(),
            MakerFault::Length => Refusal::new(Layer::Maker, 30, 0),
            MakerFault::Large(entry) => Refusal::new(Layer::Maker, 31, entry),
            MakerFault::Dependent => Refusal::new(Layer::Maker, 32, 0),
        }
    }
}

// Makes g_0 to g_(t-1) from the t entries of beta, two bytes to each. The two tables have t t cells, of any
// content; once lengths and entries are found right, they may end with any.
pub fn make(
    name: &str,
    beta: &[u8],
    powers: &mut [u16],
    inverse: &mut [u16],
    goppa: &mut [u8],
) -> Result<(), MakerFault>
    ensures { Made name.now beta.now (lent (length beta.now) (length powers.old) (length inverse.old) (length goppa.old)) (held goppa.old powers.old inverse.old) (held goppa.new powers.new inverse.new) result }
{
    let set = find_set(name)?;
    check(set, beta, powers.len(), inverse.len(), goppa.len())?;
    over_field!(set, solve(set, beta, powers, inverse, goppa))
}

// Refuses a wrong length, then an entry that is no element. The lengths are named one by one, as lent.
fn check(
    set: ParameterSet,
    beta: &[u8],
    powers: usize,
    inverse: usize,
    goppa: usize,
) -> Result<(), MakerFault>
    ensures { result ≡ refused_by (checked (numbers set) beta.now (lent (length beta.now) powers inverse goppa)) }
{
    let t = set.t;
    if beta.len() != 2 * t || powers != t * t || inverse != t * t || goppa != 2 * t {
        return Err(MakerFault::Length);
    }
    match first_large(set, beta) {
        Some(entry) => Err(MakerFault::Large(entry)),
        None => Ok(()),
    }
}

// The first entry that is 2^m or more.
fn first_large(set: ParameterSet, beta: &[u8]) -> Option<usize>
    requires { length beta.now ≡ 2 * set.t }
    ensures { result ≡ found set.t (large set.m (entry_in beta.now)) }
{
    (0..set.t).find(|&k| entry_at(beta, k) >= 1 << set.m)
}

fn entry_at(bytes: &[u8], k: usize) -> u16
    requires { 2 * k + 1 < length bytes.now }
    ensures { result ≡ entry_in bytes.now k }
{
    u16::from_le_bytes([bytes[2 * k], bytes[2 * k + 1]])
}

// The polynomials over the field of a set, modulo its F(y): slices of t coefficients.
#[derive(Drop)]
struct Ring<F: Field> {
    set: ParameterSet,
    field: PhantomData<F>,
    ghost same: { (F.WIDTH ≡ set.m) × (F.REDUCER ≡ set.f) },
}

impl<F: Field> Ring<F> {
    // y times p.
    fn raise(&self, p: &mut [u16])
        requires long { length p.old ≡ self.now.set.t }
        ensures { (i : ℕ) → i < self.now.set.t → slice_index p.new i ≡ times_y (times self.now.set.m self.now.set.f) self.now.set.t (low_of self.now.set.terms) (slice_index p.old) i }
    {
        let last = self.set.t - 1;
        let top = p[last];
        p.copy_within(..last, 1);
        p[0] = 0;
        for term in &self.set.terms {
            p[term.power] ^= F::mul(top, term.coefficient);
        }
    }

    // The product of a and s into out; s is used up.
    fn multiply(&self, a: &[u16], s: &mut [u16], out: &mut [u16])
        requires long { (length a.now ≡ self.now.set.t) × (length s.old ≡ self.now.set.t) × (length out.old ≡ self.now.set.t) }
        requires elements { Elements self.now.set.m self.now.set.t (slice_index s.old) }
        ensures { (i : ℕ) → i < self.now.set.t → slice_index out.new i ≡ product (times self.now.set.m self.now.set.f) self.now.set.t (low_of self.now.set.terms) (slice_index a.now) (slice_index s.old) i }
    {
        out.fill(0);
        for x in a {
            add_scaled::<F>(out, s, *x);
            self.raise(s);
        }
    }
}

// Adds x times a row of elements.
fn add_scaled<F: Field>(out: &mut [u16], row: &[u16], x: u16)
    requires { length out.old ≡ length row.now }
    ensures { (i : ℕ) → i < length row.now → slice_index out.new i ≡ bit_xor (slice_index out.old i) (times F.WIDTH F.REDUCER x (slice_index row.now i)) }
{
    // By number: after a loop over iter_mut().zip(..) a proof knows nothing of what was written.
    for (i, y) in out.iter_mut().enumerate() {
        *y ^= F::mul(x, row[i]);
    }
}

// Reads the entries of two bytes.
fn read_entries(bytes: &[u8], out: &mut [u16])
    requires { length bytes.now ≡ 2 * length out.old }
    ensures { (k : ℕ) → k < length out.old → slice_index out.new k ≡ entry_in bytes.now k }
{
    for (k, x) in out.iter_mut().enumerate() {
        *x = entry_at(bytes, k);
    }
}

// Writes a row of a table.
fn write_row<F: Field>(row: &mut [F::Cell], elements: &[u16])
    requires { length row.old ≡ length elements.now }
    ensures { (i : ℕ) → i < length row.old → entry F.WIDTH F.number row.new i ≡ slice_index elements.now i % 2 ^ F.WIDTH }
{
    for (i, cell) in row.iter_mut().enumerate() {
        *cell = F::of(elements[i]);
    }
}

// Writes 1, b, .., b^(t-1) as the rows of the table, and leaves b^t in `power`.
fn write_powers<F: Field>(ring: &Ring<F>, b: &[u16], power: &mut [u16], table: &mut [F::Cell])
    requires long { (length b.now ≡ ring.now.set.t) × (length power.old ≡ ring.now.set.t) × (length table.old ≡ ring.now.set.t * ring.now.set.t) }
    ensures rows { Same ring.now.set.t (entries F.WIDTH F.number ring.now.set.t table.new) (power_of (times ring.now.set.m ring.now.set.f) ring.now.set.t (low_of ring.now.set.terms) (slice_index b.now)) }
    ensures last { Alike ring.now.set.t (slice_index power.new) (power_of (times ring.now.set.m ring.now.set.f) ring.now.set.t (low_of ring.now.set.terms) (slice_index b.now) ring.now.set.t) }
{
    let t = power.len();
    let mut memory = [0u16; LARGEST];
    let next = &mut memory[..t];
    power.fill(0);
    power[0] = 1;
    for j in 0..t {
        write_row::<F>(&mut table[j * t..j * t + t], power);
        ring.multiply(b, power, next);
        power.copy_from_slice(next);
    }
    // it tells of the polynomial
    memory.fill(0);
}

// Entry k of the power b^t times the inverse of the table of the powers below.
fn root_entry<F: Field>(power: &[u16], inverse: &[F::Cell], k: usize) -> u16
    requires whole { length inverse.now ≡ length power.now * length power.now }
    requires within { k < length power.now }
    ensures { result ≡ sum (length power.now) (λ i. times F.WIDTH F.REDUCER (slice_index power.now i) (entries F.WIDTH F.number (length power.now) inverse.now i k)) }
{
    let t = power.len();
    let mut sum: u16 = 0;
    for (i, x) in power.iter().enumerate() {
        sum ^= F::mul(*x, F::get(inverse[i * t + k]));
    }
    sum
}

// Writes the coefficients of the polynomial, two bytes to each.
fn write_root<F: Field>(power: &[u16], inverse: &[F::Cell], out: &mut [u8])
    requires whole { length inverse.now ≡ length power.now * length power.now }
    requires room { length out.old ≡ 2 * length power.now }
    ensures { (k : ℕ) → k < length power.now → entry_in out.new k ≡ sum (length power.now) (λ i. times F.WIDTH F.REDUCER (slice_index power.now i) (entries F.WIDTH F.number (length power.now) inverse.now i k)) }
{
    for k in 0..power.len() {
        let [low, high] = root_entry::<F>(power, inverse, k).to_le_bytes();
        out[2 * k] = low;
        out[2 * k + 1] = high;
    }
}

// Solves the table of powers, with the other one as its inverse.
fn invert<F: Field>(
    powers: &mut [F::Cell],
    inverse: &mut [F::Cell],
    t: usize,
) -> Result<Solved, SolveFault>
    ensures { Answer F.arith F.WIDTH F.number t t powers.old inverse.old powers.new inverse.new result }
{
    let mut first = Table::<F>::new(powers, t);
    let mut second = Table::<F>::new(inverse, t);
    first.solve(&mut second)
}

// Makes the polynomial, with memory for the entries and for a power of what they are.
fn solve_in<F: Field>(
    set: ParameterSet,
    entries: &[u8],
    b: &mut [u16],
    power: &mut [u16],
    powers: &mut [F::Cell],
    inverse: &mut [F::Cell],
    out: &mut [u8],
) -> Result<(), MakerFault>
    requires same { (F.WIDTH ≡ set.m) × (F.REDUCER ≡ set.f) }
    requires entries { length entries.now ≡ 2 * set.t }
    requires memory { (length b.old ≡ set.t) × (length power.old ≡ set.t) }
    requires tables { (length powers.old ≡ set.t * set.t) × (length inverse.old ≡ set.t * set.t) }
    requires room { length out.old ≡ 2 * set.t }
    ensures { Given (numbers set) entries.now out.old out.new result }
{
    let t = set.t;
    let ring: Ring<F> = Ring {
        set,
        field: PhantomData,
    };
    read_entries(entries, b);
    write_powers(&ring, b, power, powers);
    match invert::<F>(powers, inverse, t) {
        Ok(Solved::Inverse) => {
            write_root::<F>(power, inverse, out);
            Ok(())
        }
        Ok(Solved::Dependent(_)) => Err(MakerFault::Dependent),
        // the tables fit
        Err(_) => unreachable!(),
    }
}

// Makes the polynomial from entries and memories that were checked.
fn solve<F: Field>(
    set: ParameterSet,
    entries: &[u8],
    powers: &mut [F::Cell],
    inverse: &mut [F::Cell],
    out: &mut [u8],
) -> Result<(), MakerFault>
    requires same { (F.WIDTH ≡ set.m) × (F.REDUCER ≡ set.f) }
    requires lengths { (length entries.now ≡ 2 * set.t) × (length powers.old ≡ set.t * set.t) × (length inverse.old ≡ set.t * set.t) × (length out.old ≡ 2 * set.t) }
    ensures { Given (numbers set) entries.now out.old out.new result }
{
    let t = set.t;
    let mut b = [0u16; LARGEST];
    let mut power = [0u16; LARGEST];
    let made = solve_in::<F>(
        set,
        entries,
        &mut b[..t],
        &mut power[..t],
        powers,
        inverse,
        out,
    );
    // both tell of the polynomial
    b.fill(0);
    power.fill(0);
    made
}
