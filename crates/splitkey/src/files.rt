// Files as the commands meet them: what goes wrong is told.
use crate::advice::Advice;
use goppa::slot::KeySlot;
use std::{fs, io};

pub(super) trait Files {
    // The bytes of a file; none where it can't be read.
    fn read_file(&self, what: &str, path: &str) -> io::Result<Option<Vec<u8>>>;

    // Loads the key of a file into the slot; false where it is refused.
    fn load_key(&self, slot: &mut KeySlot, set: &str, path: &str) -> io::Result<bool>;

    // Writes a file whole; false where it can't be written.
    fn write_file(&self, path: &str, bytes: &[u8]) -> io::Result<bool>;
}

impl Files for HostRuntime {
    fn read_file(&self, what: &str, path: &str) -> io::Result<Option<Vec<u8>>> {
        match fs::read(self, path) {
            Ok(bytes) => Ok(Some(bytes)),
            Err(error) => {
                eprintln!(self; "{what} {path} can't be read: {error}")?;
                Ok(None)
            }
        }
    }

    fn load_key(&self, slot: &mut KeySlot, set: &str, path: &str) -> io::Result<bool> {
        let Some(bytes) = self.read_file("the private key", path)? else {
            return Ok(false);
        };
        match slot.load(set, &bytes) {
            Ok(()) => Ok(true),
            Err(fault) => {
                eprintln!(self; "{path}: {}", Advice::from(fault))?;
                Ok(false)
            }
        }
    }

    // Under another name first, so that the name it is asked for never holds a part.
    fn write_file(&self, path: &str, bytes: &[u8]) -> io::Result<bool> {
        let part = format!(in self.alloc(); "{path}.part")?;
        let written = fs::write(self, part.as_str(), bytes).and_then(|()| fs::rename(
            self,
            part.as_str(),
            path,
        ));
        match written {
            Ok(()) => Ok(true),
            Err(error) => {
                let _ = fs::remove_file(self, part.as_str());
                eprintln!(self; "{path} can't be written: {error}")?;
                Ok(false)
            }
        }
    }
}
