// Does a public key belong to a private key?
use crate::Command;
use crate::files::Files;
use audit::check;
use audit::verdict::Verdict;
use block::SlotKey;
use goppa::slot::KeySlot;
use std::io;

#[derive(Clone, Copy)]
pub(super) struct Check<'a> {
    pub(super) set: &'a str,
    pub(super) key: &'a str,
    pub(super) public: &'a str,
}

impl Check<'_> {
    // A public key of this set has `whole` bytes.
    fn tell(&self, rt: &HostRuntime, verdict: Verdict, whole: usize) -> io::Result<()> {
        let Check { set, key, public } = self;
        match verdict {
            Verdict::Right => println!(rt; "yes: {public} is the public key of {key}"),
            Verdict::Length(length) => println!(rt;
                "no: {public} has {length} bytes, a public key of {set} has {whole}"
            ),
            Verdict::NoKey => println!(rt;
                "no: {key} has no public key, since its check block has no inverse; make another key"
            ),
            Verdict::Wrong { column, row } => println!(rt;
                "no: column {column} of {public} is the first wrong one, and row {row} its first wrong bit"
            ),
            Verdict::Pad { row } => println!(rt;
                "no: every column is right, but a bit past the last one of row {row} is set"
            ),
        }
    }
}

impl Command for Check<'_> {
    fn run(&self, rt: &HostRuntime) -> io::Result<bool> {
        let mut slot = KeySlot::new();
        if !rt.load_key(&mut slot, self.set, self.key)? {
            return Ok(false);
        }
        let Some(bytes) = rt.read_file("the public key", self.public)? else {
            return Ok(false);
        };
        let whole = slot.set.rows() * slot.set.rest().div_ceil(8);
        let verdict = check(rt.alloc(), &SlotKey { slot: &slot }, &bytes)?;
        self.tell(rt, verdict, whole)?;
        Ok(verdict == Verdict::Right)
    }
}
