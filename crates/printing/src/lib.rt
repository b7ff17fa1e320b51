// The text that the program `tables` prints: Table 10.1-1 of TS 36.213 from the rows that replies look up (`frame::window_of`),
// Tables 10.1-2 to 10.1-4 from the rows that the engine's lookups are proved equal to (`symbols::table_of`).
#![tactic(auto)]

ghost use Rattle.std.specs.Prelude.{◌≤◌, ◌<◌, ◌≡◌, [], length, get_or};
ghost use Rattle.frame.specs.Table.{window_of};
ghost use Rattle.line.specs.Line.{added};
ghost use Rattle.symbols.specs.Coded.{printed};
ghost use Rattle.printing.specs.Text.{cell, word, k_text, window_row, window_table};
ghost use Rattle.printing.specs.Text.{said, symbol_row, title, heading, symbol_table, all_lines, line_text};

use line::{Line, digit};
use symbols::{Cell, Symbol, TableRow};

// How many lines the text has.
pub const LINES: u16 = 56;

// Puts a text in a column on the line, spaces after it up to the column's width.
#[tactic(auto, using(crate::proofs::Adding::cell_begun, crate::proofs::Adding::cell_more, crate::proofs::Adding::cell_done))]
fn push_cell(line: &mut Line, text: &[u8], width: usize)
    ensures { line.new ≡ added line.old (cell width text.now) }
{
    line.extend_from_slice(text);
    for _place in text.len()..width {
        line.push(b' ');
    }
}

// K of subframe n in configuration c as printed.
#[tactic(auto, using(crate::proofs::Windows::k_none, crate::proofs::Windows::k_some))]
fn k_text(c: u16, n: u16) -> Line
    ensures { result ≡ k_text (window_of c n) }
{
    let mut line = Line::new();
    match frame::window_of(c, n) {
        [] => line.push(b'-'),
        [first, rest @ ..] => {
            line.push_number(*first);
            line.push_listed(b", ", rest);
        }
    }
    line
}

// The columns of subframes 0 to 9 of Table 10.1-1 have these widths.
const WIDTHS: [usize; 10] = [3, 3, 31, 12, 6, 3, 3, 12, 3, 1];

// Puts the row of configuration c on the line.
#[tactic(auto, using(crate::proofs::Adding::cells_none, crate::proofs::Adding::cells_more), unfolding(crate::specs::Text::window_row))]
fn push_window_row(line: &mut Line, c: u16)
    ensures { line.new ≡ added line.old (window_row c) }
{
    push_cell(line, &[digit(c as u32)], 15);
    for (n, &width) in (0..10).zip(&WIDTHS) {
        push_cell(line, k_text(c, n).as_bytes(), width);
    }
}

// Puts line i of Table 10.1-1 on the line: the title, the two lines of the heading, then the rows.
#[tactic(auto, using(crate::proofs::Lines::window_row_line), unfolding(crate::specs::Text::window_table))]
fn push_window_line(line: &mut Line, i: u16)
    requires { i < 10 }
    ensures { line.new ≡ added line.old (get_or window_table i []) }
{
    match i {
        0 => line.push_str(
            "Table 10.1-1: Downlink association set index K: {k_0, k_1, ..., k_(M-1)} for TDD",
        ),
        1 => line.push_str("UL-DL          Subframe n"),
        2 => line.push_str(
            "Configuration  0  1  2                              3           4     5  6  7           8  9",
        ),
        _ => push_window_row(line, i - 3),
    }
}

// A cell of Tables 10.1-2 to 10.1-4 as the print spells it. (`Display` for `Cell` was tried: it can't promise a line; see `line`.)
fn word(cell: Cell) -> &'static [u8]
    ensures { result.now ≡ word cell }
{
    match cell {
        Cell::Ack => b"ACK",
        Cell::Nack => b"NACK",
        Cell::Dtx => b"DTX",
        Cell::NackDtx => b"NACK/DTX",
    }
}

// Puts what a row says on the line: the resource, then the bits.
#[tactic(auto, using(line::proofs::Adding::added_append), unfolding(crate::specs::Text::said))]
fn push_said(line: &mut Line, says: Option<Symbol>)
    ensures { line.new ≡ added line.old (said says) }
{
    match says {
        Some(symbol) => {
            line.push_labelled(b"n_PUCCH,", symbol.index);
            line.push_labelled(b"    ", symbol.b0);
            line.push_labelled(b", ", symbol.b1);
        }
        None => {
            push_cell(line, b"N/A", 13);
            line.push_str("N/A");
        }
    }
}

// Puts a row on the line: a column for each cell, then what the row says.
#[tactic(auto, using(crate::proofs::Adding::words_more, crate::proofs::Adding::words_done))]
fn push_symbol_row(line: &mut Line, row: &TableRow)
    ensures { line.new ≡ added line.old (symbol_row (printed row.now)) }
{
    for cell in row.cells {
        push_cell(line, word(*cell), 13);
    }
    push_said(line, row.says);
}

// Puts the title of the table for M = size on the line.
fn push_title(line: &mut Line, size: u16)
    ensures { line.new ≡ added line.old (title size) }
{
    line.push_labelled(b"Table 10.1-", size);
    line.push_labelled(b": Transmission of ACK/NACK multiplexing for M = ", size);
}

// Puts the heading of the table for M = size on the line: as many columns HARQ-ACK(i) as the table has.
fn push_heading(line: &mut Line, size: u16)
    requires { size ≤ 4 }
    ensures { line.new ≡ added line.old (heading size) }
{
    let columns = b"HARQ-ACK(0)  HARQ-ACK(1)  HARQ-ACK(2)  HARQ-ACK(3)  ";
    line.extend_from_slice(&columns[..size as usize * 13]);
    line.push_str("n_PUCCH      b(0), b(1)");
}

// Puts line i of the table for M = size on the line: an empty line, the title, the heading, then the rows.
#[tactic(auto, using(line::proofs::Adding::added_none, crate::proofs::Lines::row_inside, crate::proofs::Lines::row_line), unfolding(crate::specs::Text::symbol_table))]
fn push_symbol_line(line: &mut Line, size: u16, i: u16)
    requires size_bound { size ≤ 4 }
    requires i_in_bounds { i < length (symbol_table size) }
    ensures { line.new ≡ added line.old (get_or (symbol_table size) i []) }
{
    match i {
        0 => (),
        1 => push_title(line, size),
        2 => push_heading(line, size),
        _ => push_symbol_row(line, &symbols::table_of(size)[usize::from(i - 3)]),
    }
}

// Puts line i of the text on the line, without its newline.
#[tactic(auto, using(crate::proofs::Lines::in1, crate::proofs::Lines::in2, crate::proofs::Lines::in3, crate::proofs::Lines::in4, crate::proofs::Lines::lines2, crate::proofs::Lines::lines3, crate::proofs::Lines::lines4))]
fn push_unended(line: &mut Line, i: u16)
    requires { i < 56 }
    ensures { line.new ≡ added line.old (get_or all_lines i []) }
{
    match i {
        0..10 => push_window_line(line, i),
        10..19 => push_symbol_line(line, 2, i - 10),
        19..33 => push_symbol_line(line, 3, i - 19),
        _ => push_symbol_line(line, 4, i - 33),
    }
}

// Line i of the whole text, from 0, its newline included; no text past the last line. `size_text::size_line` has the same body. A
// function of `line` for both would have to ask, in a `requires`, that the function handed to it may be called and what it writes, and
// no function that another crate can call has a `requires`; a trait with that law and two impls is longer than these lines.
#[tactic(auto, using(crate::proofs::Lines::line_ended, crate::proofs::Lines::past_last))]
pub fn table_line(i: u16) -> Line
    ensures { result ≡ line_text i }
{
    let mut line = Line::new();
    if i < LINES {
        push_unended(&mut line, i);
        line.push(b'\n');
    }
    line
}
