// Reads questions about values and words from standard input, a line each, and prints the answers.
#![tactic(auto)]

use std::io;
use std::io::Read;

fn main(rt: HostRuntime) -> io::Result<()> {
    let heap = rt.alloc();
    let mut text = Vec::new(heap);
    rt.stdin().read_to_end(&mut text)?;
    let answers = reports::report(heap, text.as_slice())?;
    print!(rt; "{answers}")
}
