// Reading an input into a buffer, which the programs begin with, and an input that is one digit.
#![tactic(auto)]

ghost use Rattle.std.specs.Prelude.{◌<◌, ◌≡◌, take, length, IfOk};
ghost use Rattle.std.specs.Io.{ReadsAtMost};
ghost use Rattle.std.specs.Io.KnownBytes.{Consumes, IsAtEnd};
ghost use Rattle.reading.specs.Digit.{digit_in};

use std::io;
use std::io::Read;

// Reads until `buf` is full or the input ends, and returns how many bytes it put at the start of `buf`. It ends with the error of the
// first read that fails. On an empty `buf` it makes no call. A pipe gives its bytes in pieces: what is not full is read again, in a
// `while`, since std has no call for this: `read_exact` fails where the input ends first, and `read_to_end` fills a `Vec`, which is heap.
pub fn read_full<R: Read>(reader: &mut R, buf: &mut [u8]) -> io::Result<usize>
    ensures bound { ReadsAtMost result buf.new }
    ensures bytes { IfOk result (λ n. Consumes (R.remaining reader.old) (R.remaining reader.new) (take n buf.new)) }
    ensures end { IfOk result (λ n. n < length buf.new → IsAtEnd (R.remaining reader.new)) }
{
    let mut done = 0;
    while done < buf.len() {
        let n = reader.read(&mut buf[done..])?;
        if n == 0 {
            break;
        }
        done += n;
    }
    Ok(done)
}

// The digit that an input is: one of 0 to 9 and a newline, nothing more.
#[tactic(auto, using(crate::proofs::Digits::is_digit, crate::proofs::Digits::no_digit))]
pub fn digit_in(input: &[u8]) -> Option<u16>
    ensures { result ≡ digit_in input.now }
{
    match input {
        [digit @ b'0'..=b'9', b'\n'] => Some((*digit - b'0') as u16),
        _ => None,
    }
}
