// The text that the program `game` prints: for the size of a window, who can force the outcome with which grants and losses, and what that
// means for configuration 5.
#![tactic(auto)]

ghost use Rattle.std.specs.Prelude.{◌≡◌};
ghost use Rattle.frame.specs.Refusals.{numbered};
ghost use Rattle.line.specs.Line.{added};
ghost use Rattle.game_text.specs.Text.{letter, cells, row, title, unended_line, game_line, refusal_line, text_line};

use frame::Refusal;
use line::Line;

// How many lines the longest text has, that of size 9.
pub const LINES: u16 = 14;

// The letter of an answer: R the radio can force the outcome, S the scheduler can prevent it. A row for a size 1 to 9 has no other.
fn letter(answer: Result<bool, Refusal>) -> u8
    ensures { result ≡ letter (numbered answer) }
{
    match answer {
        Ok(true) => b'R',
        Ok(false) => b'S',
        Err(_) => b'-',
    }
}

// Puts the letters of a row on the line, for at most 0 losses to at most 9.
#[tactic(auto, using(crate::proofs::Lines::cell_more, line::proofs::Adding::added_none), unfolding(crate::specs::Text::cells))]
fn push_cells(line: &mut Line, size: u16, grants: u16)
    ensures { line.new ≡ added line.old (cells size grants 10) }
{
    for losses in 0..10 {
        line.push(b' ');
        line.push(letter(playing::radio_wins(size, grants, losses)));
    }
}

// Puts the row of so many grants on the line.
#[tactic(auto, using(line::proofs::Adding::added_append), unfolding(crate::specs::Text::row))]
fn push_row(line: &mut Line, size: u16, grants: u16)
    ensures { line.new ≡ added line.old (row size grants) }
{
    line.push_labelled(b"G ", grants);
    push_cells(line, size, grants);
}

// Puts the title on the line.
fn push_title(line: &mut Line, size: u16)
    ensures { line.new ≡ added line.old (title size) }
{
    line.push_labelled(b"Window size ", size);
    line.push_str(
        ": R the radio can force a reply that hides a loss, S the scheduler can prevent it",
    );
}

// Puts line i of the text on the line, without its newline.
#[tactic(auto, using(crate::proofs::Lines::row_line, crate::proofs::Lines::last_line), unfolding(crate::specs::Text::unended_line))]
fn push_unended(line: &mut Line, size: u16, i: u16)
    ensures { line.new ≡ added line.old (unended_line size i) }
{
    match i {
        0 => push_title(line, size),
        1 => line.push_str(
            "A reply hides a loss if a grant before the last one heard was lost; a release is a grant here",
        ),
        2 => line.push_str("L   0 1 2 3 4 5 6 7 8 9"),
        _ if i - 3 <= size => push_row(line, size, i - 3),
        _ => line.push_str(
            "Configuration 5 (size 9): a reply hides 0, 4 or 8 losses; 0 with at most 4 grants or 3 losses",
        ),
    }
}

// Line i of the text for a size, from 0, its newline included; no text past the last line. `printing::table_line` has the same body and
// says why.
#[tactic(auto, using(crate::proofs::Lines::line_ended, crate::proofs::Lines::past_last))]
fn game_line(size: u16, i: u16) -> Line
    ensures { result ≡ game_line size i }
{
    let mut line = Line::new();
    if i <= size.saturating_add(4) {
        push_unended(&mut line, size, i);
        line.push(b'\n');
    }
    line
}

// Line i of the refusal, which is its only line.
#[tactic(auto, using(crate::proofs::Lines::past_refusal))]
fn refusal_line(i: u16) -> Line
    ensures { result ≡ refusal_line i }
{
    let mut line = Line::new();
    if i == 0 {
        line.push_str("refused 27\n");
    }
    line
}

// Line i of the text for an input, from 0: that of the size that it names, a digit 1 to 9, or of the refusal.
pub fn text_line(input: &[u8], i: u16) -> Line
    ensures { result ≡ text_line input.now i }
{
    match reading::digit_in(input) {
        Some(size) if size != 0 => game_line(size, i),
        _ => refusal_line(i),
    }
}
