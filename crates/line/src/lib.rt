// A text of at most 100 bytes, and numbers in decimal: what `listing`, `printing`, `size_text` and `reporting` write with.
//
// `write!` was tried, into the kit's `ArrayString` and into a `Line` that takes every text. An `impl Display` can say what it writes
// (`output`), but `write!`, like each `fmt`, promises it where it answers `Ok`, and nothing says when it does: a function whose line is
// promised in every call, as all are here, didn't close over it. There is no heap, so no `to_string` either.
#![tactic(auto)]

ghost use Rattle.std.specs.Prelude.{◌≡◌, [], ◌∷◌, ◌++◌, decimal};
ghost use Rattle.line.specs.Line.{added, decimal_digit, listed};

use std::marker::Model;

// A text of at most 100 bytes. What is put on a full line is left out. It is an array, since the kit's `ArrayVec` can't be copied, and the
// bytes after the text are 0, so that the text says what they all are, as `Copy` asks of a `Model`.
#[derive(Clone, Copy)]
pub struct Line {
    bytes: [u8; 100],
    size: usize,
}

impl Model for Line {
    ghost use Rattle.std.specs.Prelude.{ℕ, ◌≡◌, ◌≤◌, List, length, take};
    ghost use Rattle.std.proofs.Common.{arith, length-take-le};
    ghost use Rattle.line.specs.Line.{padded};

    ghost Value = { List ℕ };

    ghost view = { λ l. take l.size l.bytes };

    ghost invariant = { λ l. (l.size ≤ 100) × (length l.bytes ≡ 100) × (padded (take l.size l.bytes) ≡ l.bytes) };

    ghost inverse = { λ text. record { bytes = padded text; size = length text } };

    ghost inverse_ok = { λ l h i. record {
      bytes = h.2 i;
      size = length-take-le l.size l.bytes (omega (arith, h.0, h.1)) i;
    } };
}

impl Line {
    // A line with no text.
    pub fn new() -> Line
        ensures { result ≡ [] }
    {
        Line {
            bytes: [0; 100],
            size: 0,
        }
    }

    // The text.
    pub fn as_bytes(&self) -> &[u8]
        ensures { result.now ≡ self.now }
    {
        &self.bytes[..self.size]
    }

    // Puts bytes after the text, as many as there is room for.
    pub fn extend_from_slice(&mut self, bytes: &[u8])
        ensures { self.new ≡ added self.old bytes.now }
    {
        let count = (100 - self.size).min(bytes.len());
        self.bytes[self.size..self.size + count].copy_from_slice(&bytes[..count]);
        self.size += count;
    }

    #[tactic(auto, using(crate::proofs::Adding::added_byte, crate::proofs::Adding::added_full))]
    pub fn push(&mut self, b: u8)
        ensures { self.new ≡ added self.old (b ∷ []) }
    {
        if self.size < 100 {
            self.bytes[self.size] = b;
            self.size += 1;
        }
    }

    pub fn push_str(&mut self, text: &str)
        ensures { self.new ≡ added self.old text.now }
    {
        self.extend_from_slice(text.as_bytes());
    }

    // Puts a number on the line, in decimal.
    pub fn push_number(&mut self, x: u16)
        ensures { self.new ≡ added self.old (decimal x) }
    {
        let mut buffer = itoa::Buffer::new();
        self.push_str(buffer.format(x));
    }

    // Puts a text on the line, then a number.
    #[tactic(auto, using(crate::proofs::Adding::added_append))]
    pub fn push_labelled(&mut self, text: &[u8], x: u16)
        ensures { self.new ≡ added self.old (text.now ++ decimal x) }
    {
        self.extend_from_slice(text);
        self.push_number(x);
    }

    // Puts numbers on the line, a text before each.
    #[tactic(auto, using(crate::proofs::Adding::listed_more, crate::proofs::Adding::listed_all))]
    pub fn push_listed(&mut self, text: &[u8], xs: &[u16])
        ensures { self.new ≡ added self.old (listed text.now xs.now) }
    {
        for x in xs {
            self.push_labelled(text, *x);
        }
    }
}

// The last decimal digit of a number, in ASCII: 48 is `0`. (For one character the kit's `itoa`, which gives all digits of a number and
// lends them as a text, would be no plainer than this sum.)
pub fn digit(x: u32) -> u8
    ensures { result ≡ decimal_digit x }
{
    b'0' + (x % 10) as u8
}
