// Reads the size of a window, one digit 1 to 9 and a newline, and writes who can force the outcome with which grants and losses, and what
// that means for configuration 5 (document 02, U12).
#![tactic(auto)]

use std::io;
use std::io::Write;

// Three bytes are asked for, so that a third one is seen and refused.
fn main(rt: HostRuntime) -> io::Result<()> {
    let mut input = [0u8; 3];
    let n = reading::read_full(&mut rt.stdin(), &mut input)?;
    for i in 0..game_text::LINES {
        rt.stdout()
            .write_all(game_text::text_line(&input[..n], i).as_bytes())?;
    }
    Ok(())
}
