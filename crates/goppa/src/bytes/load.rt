ghost use Rattle.std.specs.Prelude.{◌≡◌, OnErr};
ghost use Rattle.params.specs.Sets.{numbers};
ghost use Rattle.goppa.specs.Loading.{key_of, fresh, read_as, loaded, outcome, held};

use super::{KeyBytes, KeyElements};
use crate::fault::LoadFault;
use crate::slot::KeySlot;
use params::find_set;
use params::set::ParameterSet;

// g_0 = 8 and g_1 = 1, then the support 0 to 11.
const FRESH: &[u8] =
    b"\x08\0\x01\0\0\0\x01\0\x02\0\x03\0\x04\0\x05\0\x06\0\x07\0\x08\0\x09\0\x0a\0\x0b\0";

impl KeySlot {
    // A new slot: practice12 with g = x^2 + x + 8 and the support 0 to 11.
    pub fn new() -> KeySlot
        ensures { key_of result ≡ fresh }
    {
        let set = ParameterSet::practice12();
        let elements = KeyElements {
            key: KeyBytes { set, bytes: FRESH },
        };
        let mut goppa = [0u16; 128];
        let mut support = [0u16; 8192];
        let mut inverses = [0u16; 8192];
        elements.key.write_entries(0, set.t, &mut goppa);
        elements.key.write_entries(set.t, set.n, &mut support);
        elements.write_inverses(&mut inverses);
        KeySlot {
            set,
            goppa,
            support,
            inverses,
        }
    }

    // Loads the key in the bytes under the set of this name; a refusal leaves the slot as it was.
    pub fn load(&mut self, name: &str, bytes: &[u8]) -> Result<(), LoadFault>
        ensures result { result ≡ outcome (loaded name.now bytes.now) }
        ensures holds { key_of self.new ≡ held (loaded name.now bytes.now) (key_of self.old) }
        ensures kept { OnErr result (self.new ≡ self.old) }
    {
        let set = find_set(name)?;
        self.read(set, bytes)
    }

    // Every check runs over the whole key before the next, and the last before anything is written.
    fn read(&mut self, set: ParameterSet, bytes: &[u8]) -> Result<(), LoadFault>
        ensures result { result ≡ outcome (read_as (numbers set) bytes.now) }
        ensures holds { key_of self.new ≡ held (read_as (numbers set) bytes.now) (key_of self.old) }
        ensures kept { OnErr result (self.new ≡ self.old) }
    {
        if bytes.len() != 2 * (set.t + set.n) {
            return Err(LoadFault::Length(bytes.len()));
        }
        let key = KeyBytes { set, bytes };
        if let Some(at) = key.first_large() {
            return Err(LoadFault::Large(at));
        }
        let elements = KeyElements { key };
        if let Some(at) = elements.first_repeat() {
            return Err(LoadFault::Repeated(set.t + at));
        }
        if let Some(at) = elements.first_root() {
            return Err(LoadFault::Root(set.t + at));
        }
        key.write_entries(0, set.t, &mut self.goppa);
        key.write_entries(set.t, set.n, &mut self.support);
        elements.write_inverses(&mut self.inverses);
        self.set = set;
        Ok(())
    }
}
