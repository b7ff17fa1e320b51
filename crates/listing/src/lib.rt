// The text that the program `windows` prints (document 01, "Buyers' access"). A page is a `Line` that holds all lines of the text.
#![tactic(auto)]

ghost use Rattle.std.specs.Prelude.{◌≡◌};
ghost use Rattle.line.specs.Line.{added};
ghost use Rattle.listing.specs.Page.{line_of, lines_below, page_of};

use line::Line;

// Puts the line of subframe n in configuration c on the page; nothing where n has no window.
#[tactic(auto, using(crate::proofs::Adding::added_line, crate::proofs::Adding::no_line, frame::proofs::Windows::window_size))]
fn push_line(page: &mut Line, c: u16, n: u16)
    ensures { page.new ≡ added page.old (line_of c n) }
{
    let ks = frame::window_of(c, n);
    if !ks.is_empty() {
        page.push_number(c);
        page.push_listed(b" ", &[n, ks.len() as u16]);
        page.push_listed(b" ", ks);
        page.push(b'\n');
    }
}

// Puts the lines of configuration c on the page, subframes 0 to 9 in order.
#[tactic(auto, using(crate::proofs::Adding::lines_more, crate::proofs::Adding::lines_none))]
fn push_lines(page: &mut Line, c: u16)
    ensures { page.new ≡ added page.old (lines_below 10 c) }
{
    for n in 0..10 {
        push_line(page, c, n);
    }
}

// The text for an input: the lines of a configuration where it is one digit 0 to 6 and a newline, else the refusal.
#[tactic(auto, using(crate::proofs::Answers::refused, crate::proofs::Answers::past_six, crate::proofs::Answers::lines))]
pub fn page_for(input: &[u8]) -> Line
    ensures { result ≡ page_of input.now }
{
    let mut page = Line::new();
    match reading::digit_in(input) {
        Some(c) if c <= 6 => push_lines(&mut page, c),
        _ => page.push_str("refused 1\n"),
    }
    page
}
