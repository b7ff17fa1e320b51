// Reads a trace, writes the bytes of the windows that its replay completes, and then says on standard error what was refused
// (document 02, U3). The longest trace has 65,535 bytes: one more is asked for, so that a longer file is seen and refused 21. The output
// has the size that is worked out beforehand (U14); for a trace that has none, which the replay refuses too, it is empty.
#![tactic(auto)]

use std::io;
use std::io::Write;

fn main(rt: HostRuntime) -> io::Result<()> {
    let mut input = [0u8; 65536];
    let n = reading::read_full(&mut rt.stdin(), &mut input)?;
    let trace = &input[..n];
    let room = sizing::replay_size(trace).map_or(0, |size| size.bytes as usize);
    let mut out = vec![in rt.alloc(); 0; room]?;
    let replayed = replaying::replay(trace, &mut out);
    let size = replaying::WINDOW * replayed.windows as usize;
    rt.stdout().write_all(&out[..size])?;
    if let Err(stop) = replayed.end {
        rt.stderr()
            .write_all(reporting::refusal_line(stop).as_bytes())?;
    }
    Ok(())
}
