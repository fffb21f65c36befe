// Reads a script from standard input, runs it over a hall, and prints a sequence chart of the run as an SVG.
#![tactic(auto)]

use std::io;
use std::io::Read;

fn main(rt: HostRuntime) -> io::Result<()> {
    let heap = rt.alloc();
    let mut script = Vec::new(heap);
    rt.stdin().take(runner::LIMIT).read_to_end(&mut script)?;
    let drawn = charts::chart_of(heap, script.as_slice())?;
    print!(rt; "{drawn}")
}
