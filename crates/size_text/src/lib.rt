// The text of Table 7.1.7.2.1-1 that the program `tables` prints, line by line, from the sizes that `sizes::block_size` gives.
#![tactic(auto)]

ghost use Rattle.std.specs.Prelude.{◌<◌, ◌≡◌};
ghost use Rattle.line.specs.Line.{added};
ghost use Rattle.size_text.specs.Text.{aligned, number_at, columns, above, block_line, unended_line, size_line};

use line::Line;

// How many lines the text has.
pub const LINES: u16 = 331;

// Puts a number on the line in five characters, spaces before its digits. (`{:>5}` can't promise a line; see `line`.)
#[tactic(auto, using(crate::proofs::Rows::spaces_digits, line::proofs::Adding::five_digits))]
fn push_aligned(line: &mut Line, x: u32)
    requires { x < 100000 }
    ensures { line.new ≡ added line.old (aligned x) }
{
    let spaces = b"     ";
    let mut buffer = itoa::Buffer::new();
    let digits = buffer.format(x);
    line.extend_from_slice(&spaces[digits.len()..]);
    line.push_str(digits);
}

// The number that row r of a block has for N_PRB n: row 0 is the heading's.
#[tactic(auto, using(crate::proofs::Rows::size_at), unfolding(crate::specs::Text::number_at))]
fn number_at(r: u16, n: u16) -> u32
    ensures { result ≡ number_at r n }
{
    if r == 0 {
        return n as u32;
    }
    sizes::block_size(r - 1, n)
}

// Puts the ten columns of row r in block b on the line.
#[tactic(auto, using(crate::proofs::Rows::column_more, crate::proofs::Rows::number_small, line::proofs::Adding::added_none), unfolding(crate::specs::Text::columns))]
fn push_columns(line: &mut Line, b: u16, r: u16)
    requires { b < 11 }
    ensures { line.new ≡ added line.old (columns b r 10) }
{
    for k in 0..10 {
        line.push_str("  ");
        push_aligned(line, number_at(r, 10 * b + k + 1));
    }
}

// Puts the line above block b on the line.
#[tactic(auto, using(line::proofs::Adding::added_none), unfolding(crate::specs::Text::above))]
fn push_above(line: &mut Line, b: u16)
    ensures { line.new ≡ added line.old (above b) }
{
    if b == 0 {
        line.push_str("Table 7.1.7.2.1-1: Transport block size table (dimension 27x110)");
    }
}

// Puts line j of block b on the line: the line above it, the two lines of the heading, then the rows.
#[tactic(auto, using(line::proofs::Adding::added_append, crate::proofs::Rows::row_line), unfolding(crate::specs::Text::block_line))]
fn push_block_line(line: &mut Line, b: u16, j: u16)
    requires { b < 11 }
    ensures { line.new ≡ added line.old (block_line b j) }
{
    match j {
        0 => push_above(line, b),
        1 => line.push_str("I_TBS  N_PRB"),
        2 => {
            line.push_str("     ");
            push_columns(line, b, 0);
        }
        _ => {
            push_aligned(line, (j - 3) as u32);
            push_columns(line, b, j - 2);
        }
    }
}

// Puts line i of the text on the line, without its newline.
#[tactic(auto, using(line::proofs::Adding::added_none, crate::proofs::Rows::in_block), unfolding(crate::specs::Text::unended_line))]
fn push_unended(line: &mut Line, i: u16)
    requires { i < 331 }
    ensures { line.new ≡ added line.old (unended_line i) }
{
    if i != 0 {
        push_block_line(line, (i - 1) / 30, (i - 1) % 30);
    }
}

// Line i of the text, from 0, its newline included; no text past the last line. `printing::table_line` has the same body and says why.
#[tactic(auto, using(crate::proofs::Lines::line_ended, crate::proofs::Lines::past_last))]
pub fn size_line(i: u16) -> Line
    ensures { result ≡ size_line i }
{
    let mut line = Line::new();
    if i < LINES {
        push_unended(&mut line, i);
        line.push(b'\n');
    }
    line
}
