// What a private key file holds.
use crate::Command;
use crate::advice::Advice;
use crate::files::Files;
use goppa::slot::KeySlot;
use params::find_set;
use params::set::ParameterSet;
use std::io;

fn show_sizes(rt: &HostRuntime, name: &str, set: ParameterSet) -> io::Result<()> {
    println!(rt;
        "{name}: m = {}, t = {}, n = {}; a private key has {} bytes",
        set.m,
        set.t,
        set.n,
        2 * (set.t + set.n)
    )?;
    println!(rt;
        "  mt = {} rows, L = {} bytes to a row, k = {} public columns",
        set.rows(),
        set.bytes(),
        set.rest()
    )?;
    println!(rt;
        "  blinding and inverse memory {} bytes, public key {} bytes",
        set.rows() * set.bytes(),
        set.rows() * set.rest().div_ceil(8)
    )
}

#[derive(Clone, Copy)]
pub(super) struct Show<'a> {
    pub(super) set: &'a str,
    pub(super) key: &'a str,
}

impl Command for Show<'_> {
    fn run(&self, rt: &HostRuntime) -> io::Result<bool> {
        match find_set(self.set) {
            Ok(set) => show_sizes(rt, self.set, set)?,
            Err(fault) => {
                eprintln!(rt; "{}: {}", self.set, Advice::from(fault))?;
                return Ok(false);
            }
        }
        let mut slot = KeySlot::new();
        if !rt.load_key(&mut slot, self.set, self.key)? {
            return Ok(false);
        }
        println!(rt; "{}: a lawful private key", self.key)?;
        Ok(true)
    }
}
