// The ready session: publishing.
ghost use Rattle.std.specs.Prelude.{◌≡◌, ◌*◌, ◌<◌, ◌≤◌, length, MatchResult};
ghost use Rattle.bits.specs.Bits.{bytes_for};
ghost use Rattle.guard.specs.Zero.{AllZero};
ghost use Rattle.session.specs.Answers.{Published, public_column, fault_in};

use super::fault::SessionFault;
use super::state::Ready;
use super::{Product, check_lengths};
use guard::Wiped;
use key::Key;
use operator::stored::StoredMatrix;
use sink::Sink;

// Public column c.
fn make_column<'x, K: Key>(
    key: &'x K,
    inverse: &'x [u8],
    c: usize,
    working: &'x mut [u8],
) -> Result<&'x [u8], SessionFault>
    requires at { c < (K.sizes key.now).rest }
    requires inverse { length inverse.now ≡ (K.sizes key.now).rows * bytes_for (K.sizes key.now).rows }
    requires room { 2 * bytes_for (K.sizes key.now).rows ≤ length working.old }
    ensures { let n = (K.sizes key.now).rows in
        MatchResult result (λ v. (v.now ≡ public_column n (K.checks key.now) inverse.now c) × (length v.now ≡ bytes_for n)) (λ e. ⊥) }
{
    let n = key.set().rows;
    let stored = StoredMatrix::new(n, inverse);
    let mut product = Product::new(&stored, key, working);
    product.column(n + c)?;
    let Product { b, .. } = product;
    Ok(b)
}

impl Ready {
    // Sends the next public column to a sink.
    pub fn publish<K: Key, S: Sink>(
        &mut self,
        key: &K,
        inverse: &[u8],
        working: &mut [u8],
        sink: &mut S,
    ) -> Result<(), SessionFault>
        ensures done { Published self.old.set (K.sizes key.now) (K.checks key.now) self.old.sent inverse.now (length working.old) (S.store sink.old) (fault_in result) self.new.sent (S.store sink.new) }
        ensures set { self.new.set ≡ self.old.set }
        ensures zero { AllZero working.new }
    {
        let guard = Wiped { bytes: working };
        let set = key.set();
        if self.set != set {
            return Err(SessionFault::Set);
        }
        check_lengths(set.rows, inverse.len(), guard.bytes.len())?;
        let c = self.sent;
        if c == set.rest {
            return Err(SessionFault::Done(c));
        }
        let size = sink.size();
        if size != set.rows {
            return Err(SessionFault::Size(size));
        }
        let column = make_column(key, inverse, c, guard.bytes)?;
        sink.take(column)?;
        self.sent = c + 1;
        Ok(())
    }
}
