// Reads one digit 0 to 6 and a newline, and writes the windows of that configuration (document 01, "Buyers' access").
#![tactic(auto)]

use std::io;
use std::io::Write;

// Three bytes are asked for, so that a third one is seen and refused.
fn main(rt: HostRuntime) -> io::Result<()> {
    let mut input = [0u8; 3];
    let n = reading::read_full(&mut rt.stdin(), &mut input)?;
    let page = listing::page_for(&input[..n]);
    rt.stdout().write_all(page.as_bytes())
}
