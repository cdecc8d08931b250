// The bytes of a key under a set, and what loading asks of them.
ghost use Rattle.std.specs.Prelude.{◌≡◌, ℕ, ◌+◌, ◌*◌, ◌/◌, ◌<◌, ◌≤◌, length, replicate, bit_xor, slice_index};
ghost use Rattle.matrix.specs.Matrix.{delta, Elements};
ghost use Rattle.matrix.specs.Search.{found};
ghost use Rattle.bits.specs.Bits.{bits_of};
ghost use Rattle.params.specs.Sets.{numbers};
ghost use Rattle.goppa.specs.Checks.{value};
ghost use Rattle.goppa.specs.Keys.{ZeroFrom};
ghost use Rattle.goppa.specs.Loading.{entry_in, support_in, large_in, repeated_in, root_in, InversesIn};

mod load;

use crate::over_field;
use bits::get_bit;
use field::Field;
use params::set::ParameterSet;
use std::marker::PhantomData;

// The bytes of a key of the set: as many as such a key has. The clauses name set and bytes, since what they
// state is defined of these, for bytes that were not checked too.
#[derive(Clone, Copy)]
struct KeyBytes<'a> {
    set: ParameterSet,
    bytes: &'a [u8],
    ghost whole: { length bytes.now ≡ 2 * (set.t + set.n) },
}

// The same, where every entry is an element of the field.
#[derive(Clone, Copy)]
struct KeyElements<'a> {
    key: KeyBytes<'a>,
    ghost small: { Elements key.set.m (key.set.t + key.set.n) (entry_in key.bytes.now) },
}

impl KeyBytes<'_> {
    fn entry(&self, k: usize) -> u16
        requires { k < self.now.set.t + self.now.set.n }
        ensures { result ≡ entry_in self.now.bytes.now k }
    {
        u16::from_le_bytes([self.bytes[2 * k], self.bytes[2 * k + 1]])
    }

    // The first entry that is 2^m or more.
    fn first_large(&self) -> Option<usize>
        ensures { result ≡ found (self.now.set.t + self.now.set.n) (large_in (numbers self.now.set) self.now.bytes.now) }
    {
        (0..self.set.t + self.set.n).find(|&k| self.entry(k) >= 1 << self.set.m)
    }

    // Writes count entries from the entry at on, and 0 past them: nothing of an older key stays.
    fn write_entries(&self, at: usize, count: usize, out: &mut [u16])
        requires { at + count ≤ self.now.set.t + self.now.set.n }
        ensures entries { (k : ℕ) → k < length out.old → k < count → slice_index out.new k ≡ entry_in self.now.bytes.now (at + k) }
        ensures rest { ZeroFrom count out.new }
    {
        out.fill(0);
        // Left at the last entry: a walk through all cells of a slot takes ten times as long for a small set,
        // and after `take` a proof knows of no number k.
        for (k, x) in out.iter_mut().enumerate() {
            if k == count {
                break;
            }
            *x = self.entry(at + k);
        }
    }
}

// Bit x of the map is the mark of x.
fn flip_mark(map: &mut [u8], x: usize)
    requires { x / 8 < length map.old }
    ensures { (y : ℕ) → bits_of map.new y ≡ bit_xor (bits_of map.old y) (delta x y) }
{
    map[x / 8] ^= 1 << (x % 8);
}

impl KeyElements<'_> {
    // Entry j of the support.
    fn point(&self, j: usize) -> u16
        requires { j < self.now.key.set.n }
        ensures { result ≡ support_in self.now.key.set.t self.now.key.bytes.now j }
    {
        self.key.entry(self.key.set.t + j)
    }

    // The first place in the support whose entry stands before it too. Marks what it has seen.
    fn find_repeat(&self, map: &mut [u8]) -> Option<usize>
        requires room { length map.old ≡ 1024 }
        requires clear { (x : ℕ) → bits_of map.old x ≡ 0 }
        ensures { result ≡ found self.now.key.set.n (repeated_in (numbers self.now.key.set) self.now.key.bytes.now) }
    {
        // a loop, since each step also marks what it saw
        for j in 0..self.key.set.n {
            let x = usize::from(self.point(j));
            if get_bit(map, x) == 1 {
                return Some(j);
            }
            flip_mark(map, x);
        }
        None
    }

    // The same; the map tells of the support, so it is cleared.
    fn first_repeat_on(&self, map: &mut [u8]) -> Option<usize>
        requires room { length map.old ≡ 1024 }
        requires clear { (x : ℕ) → bits_of map.old x ≡ 0 }
        ensures place { result ≡ found self.now.key.set.n (repeated_in (numbers self.now.key.set) self.now.key.bytes.now) }
        ensures cleared { map.new ≡ replicate (length map.old) 0 }
    {
        let at = self.find_repeat(map);
        map.fill(0);
        at
    }

    // The first place in the support whose entry stands before it too.
    fn first_repeat(&self) -> Option<usize>
        ensures { result ≡ found self.now.key.set.n (repeated_in (numbers self.now.key.set) self.now.key.bytes.now) }
    {
        // for the largest set: the card has no heap
        let mut map = [0u8; 1024];
        self.first_repeat_on(&mut map)
    }

    // The first place in the support where g is 0.
    fn first_root(&self) -> Option<usize>
        ensures { result ≡ found self.now.key.set.n (root_in (numbers self.now.key.set) self.now.key.bytes.now) }
    {
        over_field!(
            self.key.set,
            find_root(&InField {
                elements: *self,
                field: PhantomData
            })
        )
    }

    // Writes 1 / g at each entry of the support, and 0 past them: nothing of an older key stays.
    fn write_inverses(&self, out: &mut [u16])
        requires { self.now.key.set.n ≤ length out.old }
        ensures inverses { InversesIn (numbers self.now.key.set) self.now.key.bytes.now (λ j. slice_index out.new j) }
        ensures rest { ZeroFrom self.now.key.set.n out.new }
    {
        over_field!(
            self.key.set,
            invert_values(
                &InField {
                    elements: *self,
                    field: PhantomData
                },
                out
            )
        )
    }
}

// The elements, with the field of their set.
#[derive(Drop)]
struct InField<'a, F: Field> {
    elements: KeyElements<'a>,
    field: PhantomData<F>,
    ghost same: { (F.WIDTH ≡ elements.key.set.m) × (F.REDUCER ≡ elements.key.set.f) },
}

impl<F: Field> InField<'_, F> {
    // g(x), from the last coefficient to the first.
    fn value_at(&self, x: u16) -> u16
        ensures { result ≡ value self.now.elements.key.set.m self.now.elements.key.set.f self.now.elements.key.set.t (entry_in self.now.elements.key.bytes.now) x }
    {
        let key = self.elements.key;
        let mut r: u16 = 1;
        // a loop: the closure of a fold would need its contract written out
        for i in (0..key.set.t).rev() {
            r = F::mul(x, r) ^ key.entry(i);
        }
        r
    }

    // Whether g is 0 at entry j of the support.
    fn is_root(&self, j: usize) -> bool
        requires { j < self.now.elements.key.set.n }
        ensures { result ≡ root_in (numbers self.now.elements.key.set) self.now.elements.key.bytes.now j }
    {
        self.value_at(self.elements.point(j)) == 0
    }
}

fn find_root<F: Field>(g: &InField<F>) -> Option<usize>
    ensures { result ≡ found g.now.elements.key.set.n (root_in (numbers g.now.elements.key.set) g.now.elements.key.bytes.now) }
{
    (0..g.elements.key.set.n).find(|&j| g.is_root(j))
}

fn invert_values<F: Field>(g: &InField<F>, out: &mut [u16])
    requires { g.now.elements.key.set.n ≤ length out.old }
    ensures inverses { InversesIn (numbers g.now.elements.key.set) g.now.elements.key.bytes.now (λ j. slice_index out.new j) }
    ensures rest { ZeroFrom g.now.elements.key.set.n out.new }
{
    let elements = g.elements;
    out.fill(0);
    // left at the last place, as above
    for (j, y) in out.iter_mut().enumerate() {
        if j == elements.key.set.n {
            break;
        }
        *y = F::invert(g.value_at(elements.point(j)));
    }
}
