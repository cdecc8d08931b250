// The fields: the bits, and the fields of 2^m elements for m = 4, 5, 12 and 13, behind one trait.
// Every operation is the one of the public definitions modulo the field's polynomial, at every number
// lent: a number means the element of its low bits. That these make a field is shown by crate galois.
#![tactic(auto)]

ghost use Rattle.std.specs.Prelude.{◌≡◌, ℕ, ◌-◌, ◌*◌, ◌/◌, ◌%◌, ◌^◌, ◌<◌, ◌≤◌, eqb};
ghost use Rattle.std.specs.Int.Bits.{bit_xor};
ghost use Rattle.galois.specs.Arith.{Arith};
ghost use Rattle.galois.specs.Bit.{both, bits as bit_field};
ghost use Rattle.galois.specs.Gf.{times_z, times, inverse, inverse_of};
ghost use Rattle.galois.proofs.Fields.{gf4, gf5, gf12, gf13};
ghost use Rattle.field.specs.Bits.{both-times, bit-inverse};
ghost use Rattle.field.specs.Laws.{Laws};
ghost use Rattle.std.proofs.Common.{refl, lit≤};

use std::marker::PhantomData;

// x where the bit is 1, and 0 where it is 0, without a branch.
fn masked(bit: u16, x: u16) -> u16
    requires { bit < 2 }
    ensures { result ≡ bit * x }
{
    x & 0u16.wrapping_sub(bit)
}

// Arithmetic modulo f, a polynomial of degree m.
#[derive(Clone, Copy)]
struct Reduction {
    m: u32,
    f: u16,
    ghost narrow: { m ≤ 15 },
    ghost top: { f / 2 ^ m ≡ 1 },
}

impl Reduction {
    fn new(m: u32, f: u16) -> Reduction
        requires narrow { m ≤ 15 }
        requires top { f / 2 ^ m ≡ 1 }
        ensures { (result.m ≡ m) × (result.f ≡ f) }
    {
        Reduction { m, f }
    }

    // The m low bits of a.
    fn low(self, a: u16) -> u16
        ensures { result ≡ a % 2 ^ self.m }
    {
        a & ((1 << self.m) - 1)
    }

    // z times x.
    fn times_z(self, x: u16) -> u16
        requires element { x < 2 ^ self.m }
        ensures value { result ≡ times_z self.m self.f x }
        ensures element { result < 2 ^ self.m }
    {
        let y = x << 1;
        y ^ masked((y >> self.m) & 1, self.f)
    }

    // The product of the elements in the m low bits of a and of b.
    fn product(self, a: u16, b: u16) -> u16
        ensures { result ≡ times self.m self.f a b }
    {
        let mut sum: u16 = 0;
        let mut x = self.low(a);
        let mut y = b;
        // A count of steps, each from the last one's result: there is no index and no slice.
        for _ in 0..self.m {
            sum ^= masked(y & 1, x);
            x = self.times_z(x);
            y >>= 1;
        }
        sum
    }

    // The element in the m low bits of a to the power 2^m - 2.
    fn power(self, a: u16) -> u16
        requires some { 0 < self.m }
        ensures { result ≡ inverse self.m self.f a }
    {
        let mut r: u16 = 1;
        // A count of steps, as above.
        for _ in 1..self.m {
            let s = self.product(r, r);
            r = self.product(a, s);
        }
        self.product(r, r)
    }
}

// A field of numbers below 2^WIDTH, the polynomials over the bits modulo REDUCER.
pub trait Field: Copy {
    // a cell of a table: it holds a number, and means the element of its low bits
    type Cell: Copy;

    const WIDTH: u32;

    // the constant, as the proofs know it
    ghost WIDTH: { ℕ };

    const REDUCER: u16;

    ghost REDUCER: { ℕ };

    // the operations, with the laws of a field
    ghost arith: { Arith };

    // the number in a cell
    ghost number: { Self.Cell → ℕ };

    fn low(a: u16) -> u16
        ensures { result ≡ a % 2 ^ WIDTH }
    {
        Reduction::new(Self::WIDTH, Self::REDUCER).low(a)
    }

    fn add(a: u16, b: u16) -> u16
        ensures { result ≡ bit_xor a b % 2 ^ WIDTH }
    {
        Self::low(a ^ b)
    }

    fn mul(a: u16, b: u16) -> u16
        ensures { result ≡ times WIDTH REDUCER a b }
    {
        Reduction::new(Self::WIDTH, Self::REDUCER).product(a, b)
    }

    // The inverse of 0 is 0.
    fn invert(a: u16) -> u16
        ensures { result ≡ inverse_of WIDTH REDUCER a }
    {
        if Self::low(a) == 0 {
            0
        } else {
            Reduction::new(Self::WIDTH, Self::REDUCER).power(a)
        }
    }

    // The cell of an element.
    fn of(a: u16) -> Self::Cell
        ensures { number result ≡ a % 2 ^ WIDTH };

    // The element of a cell.
    fn get(x: Self::Cell) -> u16
        ensures { result ≡ number x % 2 ^ WIDTH };

    fn is_zero(x: Self::Cell) -> bool
        ensures { result ≡ eqb (number x % 2 ^ WIDTH) 0 }
    {
        Self::get(x) == 0
    }

    // What is made here is below 2^WIDTH. No type says so: the tables lent may hold any number, so clean
    // cells would be a second type of cell.
    fn plus(x: Self::Cell, y: Self::Cell) -> Self::Cell
        ensures element { number result % 2 ^ WIDTH ≡ bit_xor (number x % 2 ^ WIDTH) (number y % 2 ^ WIDTH) }
        ensures clean { number result < 2 ^ WIDTH }
    {
        Self::of(Self::add(Self::get(x), Self::get(y)))
    }

    fn times(x: Self::Cell, y: Self::Cell) -> Self::Cell
        ensures element { number result % 2 ^ WIDTH ≡ arith.mul (number x % 2 ^ WIDTH) (number y % 2 ^ WIDTH) }
        ensures clean { number result < 2 ^ WIDTH }
    {
        Self::of(Self::mul(Self::get(x), Self::get(y)))
    }

    fn inverse(x: Self::Cell) -> Self::Cell
        ensures element { number result % 2 ^ WIDTH ≡ arith.inv (number x % 2 ^ WIDTH) }
        ensures clean { number result < 2 ^ WIDTH }
    {
        Self::of(Self::invert(Self::get(x)))
    }

    ghost laws: { Laws WIDTH REDUCER arith };
}

// The sum and the product of bits, on bytes alone, so that loops over rows of bits are vectorised:
// ten solves of order 1,664 take 7 s, and 25 s with a Gf of z + 1, in turns on one busy machine. So
// the bits are a type of their own and not a Gf.
fn bit_sum(a: u8, b: u8) -> u8
    ensures value { result ≡ bit_xor (a % 2) (b % 2) }
    ensures element { result < 2 }
{
    (a ^ b) & 1
}

fn bit_product(a: u8, b: u8) -> u8
    ensures value { result ≡ both a b }
    ensures element { result < 2 }
{
    a & b & 1
}

// The bits: modulo z + 1.
#[derive(Clone, Copy)]
pub struct Bit;

impl Field for Bit {
    type Cell = u8;

    const WIDTH: u32 = 1;

    ghost WIDTH = { 1 };

    const REDUCER: u16 = 0b11;

    ghost REDUCER = { 0b11 };

    ghost arith = { bit_field };

    ghost number = { λ x. x };

    ghost laws = { record { narrow = lit≤ tt; top = refl; wide = refl; product = both-times; inversion = bit-inverse } };

    fn of(a: u16) -> u8 {
        u8::from(a % 2 == 1)
    }

    fn get(x: u8) -> u16 {
        u16::from(x % 2)
    }

    fn plus(x: u8, y: u8) -> u8 {
        bit_sum(x, y)
    }

    fn times(x: u8, y: u8) -> u8 {
        bit_product(x, y)
    }
}

// A polynomial over the bits with no factors, of degree WIDTH: bit i of REDUCER is its term z^i.
// An impl is the data of one polynomial: its laws are computed of it, which they are not of a const parameter.
pub trait Modulus: Copy {
    const WIDTH: u32;

    ghost WIDTH: { ℕ };

    const REDUCER: u16;

    ghost REDUCER: { ℕ };

    // the field modulo the polynomial
    ghost arith: { Arith };

    ghost laws: { Laws WIDTH REDUCER arith };
}

// z^4 + z + 1
#[derive(Clone, Copy)]
pub struct Degree4;

impl Modulus for Degree4 {
    const WIDTH: u32 = 4;

    ghost WIDTH = { 4 };

    const REDUCER: u16 = 0b1_0011;

    ghost REDUCER = { 0b1_0011 };

    ghost arith = { gf4 };

    ghost laws = { record { narrow = lit≤ tt; top = refl; wide = refl; product = λ x y. refl; inversion = λ x. refl } };
}

// z^5 + z^2 + 1
#[derive(Clone, Copy)]
pub struct Degree5;

impl Modulus for Degree5 {
    const WIDTH: u32 = 5;

    ghost WIDTH = { 5 };

    const REDUCER: u16 = 0b10_0101;

    ghost REDUCER = { 0b10_0101 };

    ghost arith = { gf5 };

    ghost laws = { record { narrow = lit≤ tt; top = refl; wide = refl; product = λ x y. refl; inversion = λ x. refl } };
}

// z^12 + z^3 + 1
#[derive(Clone, Copy)]
pub struct Degree12;

impl Modulus for Degree12 {
    const WIDTH: u32 = 12;

    ghost WIDTH = { 12 };

    const REDUCER: u16 = 0b1_0000_0000_1001;

    ghost REDUCER = { 0b1_0000_0000_1001 };

    ghost arith = { gf12 };

    ghost laws = { record { narrow = lit≤ tt; top = refl; wide = refl; product = λ x y. refl; inversion = λ x. refl } };
}

// z^13 + z^4 + z^3 + z + 1
#[derive(Clone, Copy)]
pub struct Degree13;

impl Modulus for Degree13 {
    const WIDTH: u32 = 13;

    ghost WIDTH = { 13 };

    const REDUCER: u16 = 0b10_0000_0001_1011;

    ghost REDUCER = { 0b10_0000_0001_1011 };

    ghost arith = { gf13 };

    ghost laws = { record { narrow = lit≤ tt; top = refl; wide = refl; product = λ x y. refl; inversion = λ x. refl } };
}

// The field modulo P, with cells of 16 bits.
#[derive(Clone, Copy)]
pub struct Gf<P> {
    modulus: PhantomData<P>,
}

pub type Gf4 = Gf<Degree4>;

pub type Gf5 = Gf<Degree5>;

pub type Gf12 = Gf<Degree12>;

pub type Gf13 = Gf<Degree13>;

impl<P: Modulus> Field for Gf<P> {
    type Cell = u16;

    const WIDTH: u32 = P::WIDTH;

    ghost WIDTH = { P.WIDTH };

    const REDUCER: u16 = P::REDUCER;

    ghost REDUCER = { P.REDUCER };

    ghost arith = { P.arith };

    ghost number = { λ x. x };

    ghost laws = { P.laws };

    fn of(number: u16) -> u16 {
        Self::low(number)
    }

    fn get(x: u16) -> u16 {
        Self::low(x)
    }
}
