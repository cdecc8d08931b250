// A source of bits, and its bytes: written once for all that computes a vector bit by bit.
ghost use Rattle.std.specs.Prelude.{◌≡◌, ℕ, ◌+◌, ◌*◌, ◌<◌, length, if◌then◌else◌, nat_eq};
ghost use Rattle.bits.specs.Bits.{bytes_for, byte_at, pad_bit, pack};

use super::bytes_for;

// A vector told bit by bit.
pub trait BitSource {
    ghost vector: { Self → ℕ → ℕ };

    fn bit(&self, i: usize) -> u8
        ensures value { result ≡ vector self.now i }
        ensures small { result < 2 };
}

// Bit i of a vector of n bits, 0 past its end.
fn padded<B: BitSource>(b: &B, n: usize, i: usize) -> u8
    ensures value { result ≡ pad_bit n (B.vector b.now) i }
    ensures small { result < 2 }
{
    if i < n { b.bit(i) } else { 0 }
}

fn byte_at<B: BitSource>(b: &B, n: usize, j: usize) -> u8
    requires { 8 * j + 7 < 18446744073709551616 }
    ensures { result ≡ byte_at n (B.vector b.now) j }
{
    // A loop: of a fold over the same places the proof does not find what it returns.
    let mut byte = 0;
    for k in (0..8).rev() {
        byte = 2 * byte + padded(b, n, 8 * j + k);
    }
    byte
}

// Writes the first n bits, packed; memory of another length stays as it is.
pub fn write_bits<B: BitSource>(b: &B, n: usize, out: &mut [u8])
    ensures { out.new ≡ (if nat_eq (length out.old) (bytes_for n) then pack n (B.vector b.now) else out.old) }
{
    if out.len() != bytes_for(n) {
        return;
    }
    for (j, byte) in out.iter_mut().enumerate() {
        *byte = byte_at(b, n, j);
    }
}
