// Columns of bits in lent memory, whatever its layout.
ghost use Rattle.std.specs.Prelude.{◌≡◌, ◌*◌, ◌<◌, ◌≤◌, Bool, true, false, length, replicate, is_ok, if◌then◌else◌};
ghost use Rattle.bits.specs.Bits.{bytes_for, pack};
ghost use Rattle.sink.specs.Layout.{rows, width, wanted, Blank, Written};
ghost use Rattle.sink.specs.Store.{matrix_in, store_in, bytes_in, check_in, key_store, key_check, refused_store, new_store, open_store};

use super::Sink;
use super::fault::{MakeFault, SinkFault};
use super::key::PackedKey;
use bits::{are_bytes, bytes_for};
use std::marker::PhantomData;

// Size and limit of a store.
#[derive(Clone, Copy)]
pub struct Shape {
    pub size: usize,
    pub limit: usize,
    ghost some: { (0 < size) × (size ≤ 1664) },
    ghost small: { limit ≤ 8192 },
}

// How columns stand in memory that is rows of bits, each of whole bytes. Memory, shape and place stay
// three parameters: only these two functions take them, and `Columns` holds the first two.
pub(crate) trait Layout {
    // each row is a column; else each row has one bit of every column
    ghost by_columns: { Bool };

    // How many rows.
    fn rows(size: usize, limit: usize) -> usize
        ensures { result ≡ rows by_columns size limit };

    // How many bits a row has.
    fn width(size: usize, limit: usize) -> usize
        ensures { result ≡ width by_columns size limit };

    // Writes a column as column `at`, its pad bits cleared.
    fn write(bytes: &mut [u8], shape: Shape, at: usize, column: &[u8])
        requires room { wanted by_columns shape.size shape.limit ≤ length bytes.old }
        requires place { at < shape.limit }
        requires whole { length column.now ≡ bytes_for shape.size }
        ensures { Written by_columns shape.size shape.limit at column.now bytes.old bytes.new };

    // Writes column `at` into `out`.
    fn read(bytes: &[u8], shape: Shape, at: usize, out: &mut [u8])
        requires room { wanted by_columns shape.size shape.limit ≤ length bytes.now }
        requires place { at < shape.limit }
        requires whole { length out.old ≡ bytes_for shape.size }
        ensures { out.new ≡ pack shape.size (λ i. matrix_in by_columns shape.size shape.limit bytes.now i at) };
}

// `made`: by `new`, from values not refused. A bool, as the store's `whole`: an enum would say no more.
#[derive(Drop)]
pub struct Columns<'a, L: Layout> {
    bytes: &'a mut [u8],
    shape: Shape,
    taken: usize,
    made: bool,
    layout: PhantomData<L>,
    ghost few: { taken ≤ shape.limit },
    ghost room: { wanted L.by_columns shape.size shape.limit ≤ length bytes.now },
    ghost exact: { (made ≡ true → length bytes.now ≡ wanted L.by_columns shape.size shape.limit) },
    // what is not made takes nothing
    ghost shut: { (made ≡ false → taken ≡ shape.limit) },
    // what is no bit of a column taken is 0
    ghost blank: { (made ≡ true → Blank L.by_columns shape.size shape.limit taken bytes.now) },
}

// The clauses name the parts that a store is: a definition over the type would not show of which memory they speak.
impl<'a, L: Layout> Columns<'a, L> {
    // What making or opening a store is refused by.
    pub fn check(bytes: &[u8], size: usize, limit: usize) -> Result<(), MakeFault>
        ensures { result ≡ check_in L.by_columns size limit (length bytes.now) }
    {
        if size == 0 || size > 1664 {
            return Err(MakeFault::Size(size));
        }
        if limit == 0 || limit > 8192 {
            return Err(MakeFault::Limit);
        }
        if bytes.len() != L::rows(size, limit) * bytes_for(L::width(size, limit)) {
            return Err(MakeFault::Memory);
        }
        Ok(())
    }

    // An empty store over cleared memory. Refused values make one of size 1 and limit 0.
    pub fn new(bytes: &'a mut [u8], size: usize, limit: usize) -> Columns<'a, L>
        ensures holds { store_in L.by_columns result.shape.size result.shape.limit result.taken result.made result.bytes.now ≡ new_store (check_in L.by_columns size limit (length bytes.old)) size limit bytes.old }
        ensures memory { result.bytes.now ≡ (if is_ok (check_in L.by_columns size limit (length bytes.old)) then replicate (length bytes.old) 0 else bytes.old) }
        ensures same { result.bytes.ghost_name ≡ bytes.entry.ghost_name }
    {
        if Columns::<L>::check(bytes, size, limit).is_ok() {
            bytes.fill(0);
            let shape = Shape { size, limit };
            return Columns {
                bytes,
                shape,
                taken: 0,
                made: true,
                layout: PhantomData,
            };
        }
        Columns::refused(bytes)
    }

    // A store of refused values.
    fn refused(bytes: &'a mut [u8]) -> Columns<'a, L>
        ensures holds { store_in L.by_columns result.shape.size result.shape.limit result.taken result.made result.bytes.now ≡ refused_store bytes.old }
        ensures memory { result.bytes.now ≡ bytes.old }
        ensures same { result.bytes.ghost_name ≡ bytes.entry.ghost_name }
    {
        let shape = Shape { size: 1, limit: 0 };
        Columns {
            bytes,
            shape,
            taken: 0,
            made: false,
            layout: PhantomData,
        }
    }

    // The memory: of a store made by `new`, the columns in their layout and 0 elsewhere.
    pub fn bytes(&self) -> &[u8]
        ensures is { result.now ≡ self.now.bytes.now }
        ensures holds { result.now ≡ bytes_in L.by_columns (store_in L.by_columns self.now.shape.size self.now.shape.limit self.now.taken self.now.made self.now.bytes.now) }
    {
        // Tells the proof that every byte is below 256; it does not know this of a slice that is only lent on.
        are_bytes(self.bytes);
        self.bytes
    }
}

impl<'a> PackedKey<'a> {
    // A key that was received: it holds `limit` columns. Refused values make a key of size 1 and limit 0.
    pub fn open(bytes: &'a mut [u8], size: usize, limit: usize) -> PackedKey<'a>
        ensures holds { key_store result.shape.size result.shape.limit result.taken result.made result.bytes.now ≡ open_store (key_check size limit (length bytes.old)) size limit bytes.old }
        ensures memory { result.bytes.now ≡ bytes.old }
        ensures same { result.bytes.ghost_name ≡ bytes.entry.ghost_name }
    {
        if PackedKey::check(bytes, size, limit).is_ok() {
            let shape = Shape { size, limit };
            return Columns {
                bytes,
                shape,
                taken: limit,
                made: false,
                layout: PhantomData,
            };
        }
        Columns::refused(bytes)
    }
}

impl<L: Layout> Sink for Columns<'_, L> {
    ghost store = { λ s. store_in L.by_columns s.shape.size s.shape.limit s.taken s.made s.bytes.now };

    fn size(&self) -> usize {
        self.shape.size
    }

    fn take(&mut self, column: &[u8]) -> Result<(), SinkFault> {
        let shape = self.shape;
        if column.len() != bytes_for(shape.size) {
            return Err(SinkFault::Length(column.len()));
        }
        if self.taken >= shape.limit {
            return Err(SinkFault::Full(shape.limit));
        }
        L::write(self.bytes, shape, self.taken, column);
        self.taken += 1;
        Ok(())
    }

    fn read(&self, j: usize, out: &mut [u8]) -> Result<(), SinkFault> {
        if out.len() != bytes_for(self.shape.size) {
            return Err(SinkFault::Length(out.len()));
        }
        if j >= self.taken {
            return Err(SinkFault::Absent(j));
        }
        L::read(self.bytes, self.shape, j, out);
        Ok(())
    }
}
