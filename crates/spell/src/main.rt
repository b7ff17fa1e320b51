// Reads a trace, writes it in its one spelling, and says on standard error what was refused (document 02, U4): two labs compare their
// traces with `cmp`. The longest trace has 65,535 bytes: one more is asked for, so that a longer file is seen and refused 21.
#![tactic(auto)]

use std::io;
use std::io::Write;

fn main(rt: HostRuntime) -> io::Result<()> {
    let mut input = [0u8; 65536];
    let n = reading::read_full(&mut rt.stdin(), &mut input)?;
    let mut out = [0u8; 65536];
    match spelling::write(&input[..n], &mut out) {
        Ok(size) => rt.stdout().write_all(&out[..size as usize]),
        Err(stop) => rt
            .stderr()
            .write_all(reporting::refusal_line(stop).as_bytes()),
    }
}
