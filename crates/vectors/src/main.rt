// Compares what the register computes with published and worked values, one by one, and prints how many agree.
#![tactic(auto)]

mod hashes;
mod layouts;
mod scripts;

use hashes::hashes_that_agree;
use layouts::{saved_tape, tape_bytes_that_agree, text_bytes_that_agree};
use scripts::script_agrees;
use std::io;

fn main(rt: HostRuntime) -> io::Result<()> {
    let hashes = hashes_that_agree();
    println!(rt; "siphash {hashes} of 64")?;
    let texts = text_bytes_that_agree();
    println!(rt; "text bytes {texts} of 28")?;
    let bytes = tape_bytes_that_agree(&saved_tape());
    println!(rt; "tape bytes {bytes} of 144")?;
    let scripts = usize::from(script_agrees(rt.alloc())?);
    println!(rt; "script {scripts} of 1")
}
