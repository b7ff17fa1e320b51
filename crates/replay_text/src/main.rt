// Reads a trace and writes a line for each window that its replay completes, and then one for what was refused (document 02, U3).
// The longest trace has 65,535 bytes: one more is asked for, so that a longer file is seen and refused 21.
#![tactic(auto)]

use std::io;
use std::io::Write;

fn main(rt: HostRuntime) -> io::Result<()> {
    let mut input = [0u8; 65536];
    let n = reading::read_full(&mut rt.stdin(), &mut input)?;
    let trace = &input[..n];
    let mut out = [0u8; 65536];
    let replayed = replaying::replay(trace, &mut out);
    for w in 0..replayed.windows {
        let line = reporting::window_line(trace, &out, w);
        rt.stdout().write_all(line.as_bytes())?;
    }
    if let Err(stop) = replayed.end {
        rt.stdout()
            .write_all(reporting::refusal_line(stop).as_bytes())?;
    }
    Ok(())
}
