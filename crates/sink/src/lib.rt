// Sinks: stores for the columns of a public key, as a column book or as a packed key.
// A sink's meaning is its size, its limit and the columns taken; the trait states what taking and
// reading do to it, refusals included. Who sends the columns is left to others.
#![tactic(auto)]

ghost use Rattle.std.specs.Prelude.{◌≡◌};
ghost use Rattle.sink.specs.Faults.{told_sink, told_making};
ghost use Rattle.sink.specs.Store.{Store, Taking, Reading};

pub mod book;
mod columns;
pub mod fault;
pub mod key;

use fault::{MakeFault, SinkFault};
use refusal::Fault;
use refusal::told::{Layer, Refusal};

// A store for columns of `size` bits, packed; a sink from elsewhere shows the same of its own store.
pub trait Sink {
    // size, limit, the columns taken, and the memory where it is more than these
    ghost store: { Self → Store };

    // How many bits a column has.
    fn size(&self) -> usize
        ensures { result ≡ (store self.now).size };

    // Appends one column.
    fn take(&mut self, column: &[u8]) -> Result<(), SinkFault>
        ensures { Taking (store self.old) (store self.new) column.now result };

    // Writes column j into `out`.
    fn read(&self, j: usize, out: &mut [u8]) -> Result<(), SinkFault>
        ensures { Reading (store self.now) j out.old out.new result };
}

impl Fault for SinkFault {
    ghost told = { told_sink };

    fn refusal(self) -> Refusal {
        match self {
            SinkFault::Length(length) => Refusal::new(Layer::Sinks, 8, length),
            SinkFault::Full(limit) => Refusal::new(Layer::Sinks, 26, limit),
            SinkFault::Absent(column) => Refusal::new(Layer::Sinks, 28, column),
        }
    }
}

impl Fault for MakeFault {
    ghost told = { told_making };

    fn refusal(self) -> Refusal {
        match self {
            MakeFault::Size(size) => Refusal::new(Layer::Sinks, 6, size),
            MakeFault::Limit => Refusal::new(Layer::Sinks, 27, 0),
            MakeFault::Memory => Refusal::new(Layer::Sinks, 27, 1),
        }
    }
}
