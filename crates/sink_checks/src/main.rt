// Tells what sinks answer.
#![tactic(auto)]

use sink_lines::SinkLines;
use std::io;

fn main(rt: HostRuntime) -> io::Result<()> {
    let lines = SinkLines;
    print!(rt; "{lines}")
}
