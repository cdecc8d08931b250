// A key tool for the bench, for those who prepare and check cards: it makes the public key of a private key and a
// blinding from files, with card and host in one process, tells whether a public key belongs to a private key, and
// shows what a private key file holds.
#![tactic(auto)]

mod advice;
mod check;
mod files;
mod make;
mod show;

use check::Check;
use make::Make;
use show::Show;
use std::process::ExitCode;
use std::{env, io};

// What the tool is asked; true where it was done, or where the answer is yes.
trait Command {
    fn run(&self, rt: &HostRuntime) -> io::Result<bool>;
}

const USAGE: &str = "\
splitkey make SET KEY BLINDING OUT   makes the public key of KEY into OUT
splitkey check SET KEY PUBLIC        tells whether PUBLIC is the public key of KEY
splitkey show SET KEY                shows set and sizes, or why KEY is refused

SET is a name such as mceliece348864, KEY a private key of 2(t+n) bytes, BLINDING
a matrix of mt rows of bytes, OUT the file to write, PUBLIC a packed public key.";

fn run(rt: &HostRuntime) -> io::Result<bool> {
    let heap = rt.alloc();
    let mut words: Vec<String> = Vec::new(heap);
    for word in env::args(rt)? {
        words.push(word)?;
    }
    match words.get(1).map(|word| word.as_str()) {
        Some("make") if words.len() == 6 => Make {
            set: words[2].as_str(),
            key: words[3].as_str(),
            blinding: words[4].as_str(),
            out: words[5].as_str(),
        }
        .run(rt),
        Some("check") if words.len() == 5 => Check {
            set: words[2].as_str(),
            key: words[3].as_str(),
            public: words[4].as_str(),
        }
        .run(rt),
        Some("show") if words.len() == 4 => Show {
            set: words[2].as_str(),
            key: words[3].as_str(),
        }
        .run(rt),
        None => {
            println!(rt; "{USAGE}")?;
            Ok(true)
        }
        Some(_) => {
            eprintln!(rt; "{USAGE}")?;
            Ok(false)
        }
    }
}

fn main(rt: HostRuntime) -> io::Result<ExitCode> {
    Ok(if run(&rt)? {
        ExitCode::SUCCESS
    } else {
        ExitCode::FAILURE
    })
}
