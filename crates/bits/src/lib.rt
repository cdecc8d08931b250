// Packed bit vectors: bit i of a vector is bit i mod 8, lowest first, of byte i / 8.
// Every call works byte by byte, is defined for memories of any length (a byte past the end counts
// as 0), and writes pad bits as 0. What matrices the bytes mean is told by the crates above.
#![tactic(auto)]

ghost use Rattle.std.specs.Prelude.{◌≡◌, ℕ, ◌+◌, ◌-◌, ◌*◌, ◌/◌, ◌%◌, ◌^◌, ◌<◌, ◌≤◌, min, not, length, if◌then◌else◌, ◌==◌, take, drop, fold, bit_and, bit_xor, nat_eq, slice_index};
ghost use Rattle.std.specs.List.{zip};
ghost use Rattle.galois.specs.Bit.{both};
ghost use Rattle.matrix.specs.Matrix.{sum, delta};
ghost use Rattle.matrix.specs.Search.{found};
ghost use Rattle.bits.specs.Bits.{bit_of, bits_of, bits_from, bytes_for, pack, unit_byte};

pub mod source;

// How many bytes n bits fill.
pub fn bytes_for(n: usize) -> usize
    ensures { result ≡ bytes_for n }
{
    n.div_ceil(8)
}

// Bit k of a byte, lowest first.
// A bit is a u8 and has no type of its own: sums and products of bits are taken on bytes, so each use
// would turn it into a number again.
#[tactic(auto, unfolding(crate::specs::Bits::bit_of))]
pub fn bit_of(b: u8, k: usize) -> u8
    ensures value { result ≡ bit_of b k }
    ensures small { result < 2 }
{
    if k < 8 { (b >> k) % 2 } else { 0 }
}

// Byte j of a vector.
fn byte_of(v: &[u8], j: usize) -> u8
    ensures { result ≡ slice_index v.now j }
{
    v.get(j).copied().unwrap_or(0)
}

// Bit i of a vector.
#[tactic(auto, unfolding(crate::specs::Bits::bits_of))]
pub fn get_bit(v: &[u8], i: usize) -> u8
    ensures value { result ≡ bits_of v.now i }
    ensures small { result < 2 }
{
    bit_of(byte_of(v, i / 8), i % 8)
}

// The sum of the eight bits of a byte.
pub fn parity(x: u8) -> u8
    ensures { result ≡ sum 8 (bit_of x) }
{
    let a = x ^ (x >> 4);
    let b = a ^ (a >> 2);
    (b ^ (b >> 1)) & 1
}

// The byte whose low r bits are 1.
pub fn mask(r: usize) -> u8
    ensures { result ≡ 2 ^ min r 8 - 1 }
{
    if r < 8 { (1u8 << r) - 1 } else { 255 }
}

// Tells the proof of a function that goes on to write a slice that what it held is below 256.
// No code is left of it.
pub fn are_bytes(s: &[u8])
    ensures { (k : ℕ) → k < length s.now → slice_index s.now k < 256 }
{
    for x in s {
        let _y = *x;
    }
}

// The bytes from `at` on, none past the end.
fn rest(s: &[u8], at: usize) -> &[u8]
    ensures { result.now ≡ drop at s.now }
{
    s.get(at..).unwrap_or(&[])
}

// The first n bytes, fewer where there are fewer, so that no caller has to look how many there are.
fn first(s: &[u8], n: usize) -> &[u8]
    ensures { result.now ≡ take n s.now }
{
    s.get(..n).unwrap_or(s)
}

// The sum of the products of two vectors, byte by byte.
fn products(a: &[u8], b: &[u8]) -> u8
    ensures { result ≡ fold (λ sum p. bit_xor sum (bit_and p.0 p.1)) 0 (zip a.now b.now) }
{
    a.iter().zip(b).fold(0, |sum, (x, y)| sum ^ (x & y))
}

// The sum of the products of the first n bits of two vectors, the first from byte `at` on.
// The offset stands beside the slice here and in `xor_row`, since both promise their result at every
// offset, past the end too: a caller would have to cut the slice, with an arm for that.
pub fn dot(rows: &[u8], at: usize, v: &[u8], n: usize) -> u8
    ensures value { result ≡ sum n (λ k. both (bits_from at rows.now k) (bits_of v.now k)) }
    ensures small { result < 2 }
{
    // Cut first: with `zip` and `take`, 166 million rows of 208 bytes take 54 s, and not 3.4 s.
    let row = rest(rows, at);
    let whole = n / 8;
    let tail = byte_of(row, whole) & byte_of(v, whole) & mask(n % 8);
    parity(products(first(row, whole), v) ^ tail)
}

// Adds the bytes from `at` on; `dot` says why the offset stands beside the slice.
pub fn xor_row(rows: &[u8], at: usize, out: &mut [u8])
    ensures { (j : ℕ) → j < length out.new → slice_index out.new j ≡ bit_xor (slice_index out.old j) (slice_index rows.now (at + j)) }
{
    let row = first(rest(rows, at), out.len());
    // By place: after a loop over `iter_mut().zip(..)` a proof knows nothing of what was written.
    for (j, x) in row.iter().enumerate() {
        out[j] ^= *x;
    }
}

// Clears the pad bits of a vector of n bits; memory of another length stays as it is.
pub fn clear_pads(out: &mut [u8], n: usize)
    ensures { out.new ≡ (if nat_eq (length out.old) (bytes_for n) then pack n (bits_of out.old) else out.old) }
{
    if out.len() != bytes_for(n) {
        return;
    }
    are_bytes(out);
    let r = n % 8;
    if r != 0 {
        // By place: after `get_mut` or `last_mut` a proof knows nothing of what was written.
        out[n / 8] &= mask(r);
    }
}

// Bit j of unit row i.
#[tactic(auto, unfolding(matrix::specs::Matrix::delta))]
fn unit_bit(i: usize, j: usize) -> u8
    ensures { result ≡ delta i j }
{
    u8::from(i == j)
}

// Byte j of unit row i.
fn unit_byte(i: usize, j: usize) -> u8
    ensures { result ≡ unit_byte i j }
{
    if i / 8 == j { 1 << (i % 8) } else { 0 }
}

// The first wrong column, where those before `from` are right.
fn scan(v: &[u8], n: usize, i: usize, from: usize) -> Option<usize>
    requires right { (k : ℕ) → k < from → bits_of v.now k ≡ delta i k }
    requires within { from ≤ n }
    ensures { result ≡ found n (λ j. not (bits_of v.now j == delta i j)) }
{
    (from..n).find(|j| get_bit(v, *j) != unit_bit(i, *j))
}

// How many of the first n bytes of v are those of unit row i, before one that is not.
fn right_bytes(v: &[u8], n: usize, i: usize) -> usize
    ensures within { result ≤ n }
    ensures right { (k : ℕ) → k < 8 * result → bits_of v.now k ≡ delta i k }
{
    // a loop: by `find`, a search takes twice as long
    for j in 0..n {
        if byte_of(v, j) != unit_byte(i, j) {
            return j;
        }
    }
    n
}

// The first of n columns in which v is not unit row i; unit row n is zero.
pub fn first_wrong(v: &[u8], n: usize, i: usize) -> Option<usize>
    ensures { result ≡ found n (λ j. not (bits_of v.now j == delta i j)) }
{
    scan(v, n, i, 8 * right_bytes(v, n / 8, i))
}

// The first of n columns in which v is not 0.
pub fn first_nonzero(v: &[u8], n: usize) -> Option<usize>
    ensures { result ≡ found n (λ j. not (bits_of v.now j == 0)) }
{
    first_wrong(v, n, n)
}
