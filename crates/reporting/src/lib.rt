// The text of the programs over a trace, `replay`, `replay-text` and `spell`: a line for each window that a replay wrote, and one for
// a refusal.
#![tactic(auto)]

ghost use Rattle.std.specs.Prelude.{◌≡◌};
ghost use Rattle.line.specs.Line.{added};
ghost use Rattle.replaying.specs.Ended.{stop_refusal, stopped_at};
ghost use Rattle.reporting.specs.Text.{frame_of, kind_of, kind_text, sent_text, line_text, window_text, refusal_text};

use line::Line;
use replaying::Stop;
use reply::ReplyKind;

// What a replay writes of a window: its uplink subframe, the kind of the reply, none in a silent window, the resource and the two bits.
#[derive(Clone, Copy)]
struct Written {
    n: u8,
    kind: Option<ReplyKind>,
    resource: u16,
    b0: u8,
    b1: u8,
}

// The frame of window w.
#[tactic(auto, unfolding(crate::specs::Text::frame_of))]
fn frame_of(config: u16, w: u16) -> u16
    ensures { result ≡ frame_of config w }
{
    let windows = counting::windows_before(config, 10);
    if windows == 0 {
        return 0;
    }
    w / windows
}

// The kind with this number in a window's bytes: none is a silent window, and any other number than these is read as multiplexed. So it is
// no `TryFrom`, which would refuse.
fn kind_of(number: u8) -> Option<ReplyKind>
    ensures { result ≡ kind_of number }
{
    match number {
        0 => None,
        1 => Some(ReplyKind::Bundled),
        _ => Some(ReplyKind::Multiplexed),
    }
}

// The word for the kind of a reply; no `Display`, as at `refusal_line`.
#[tactic(auto, unfolding(crate::specs::Text::kind_text))]
fn kind_text(kind: ReplyKind) -> &'static str
    ensures { result.now ≡ kind_text kind }
{
    match kind {
        ReplyKind::Bundled => "bundled",
        ReplyKind::Multiplexed => "multiplexed",
    }
}

// Puts what was sent in a window on the line.
#[tactic(auto, unfolding(crate::specs::Text::sent_text))]
fn push_sent(line: &mut Line, window: Written)
    ensures { line.new ≡ added line.old (sent_text window.kind window.resource window.b0 window.b1) }
{
    match window.kind {
        None => line.push_str("silent"),
        Some(kind) => {
            line.push_str(kind_text(kind));
            line.push_labelled(b", resource ", window.resource);
            line.push_labelled(b", bits ", window.b0 as u16);
            line.push_labelled(b" ", window.b1 as u16);
        }
    }
}

// A window's line, its newline included.
#[tactic(auto, using(line::proofs::Adding::added_append, crate::proofs::Lines::line_alone), unfolding(crate::specs::Text::line_text))]
fn line_of(frame: u16, window: Written) -> Line
    ensures { result ≡ line_text frame window.n window.kind window.resource window.b0 window.b1 }
{
    let mut line = Line::new();
    line.push_labelled(b"frame ", frame);
    line.push_labelled(b" subframe ", window.n as u16);
    line.push_str(": ");
    push_sent(&mut line, window);
    line.push(b'\n');
    line
}

// The line of window w of an output that a replay of the trace wrote.
#[tactic(auto, unfolding(crate::specs::Text::window_text, trace::specs::Trace::number_at))]
pub fn window_line(trace: &[u8], out: &[u8], w: u16) -> Line
    ensures { result ≡ window_text trace.now out.now w }
{
    let at = replaying::WINDOW * w as usize;
    let window = Written {
        n: trace::byte_at(out, at),
        kind: kind_of(trace::byte_at(out, at + 1)),
        resource: u16::from_le_bytes([trace::byte_at(out, at + 2), trace::byte_at(out, at + 3)]),
        b0: trace::byte_at(out, at + 4),
        b1: trace::byte_at(out, at + 5),
    };
    line_of(frame_of(trace::settings_of(trace).config, w), window)
}

// The line of a refusal, from its number and that of the record that was refused, if one was, its newline included; no text for 0, which
// is no refusal. It takes a number, so that each has a text, also one that no refusal has.
#[tactic(auto, using(line::proofs::Adding::added_append, crate::proofs::Lines::no_refusal, crate::proofs::Lines::refused, crate::proofs::Lines::stopped))]
pub fn refusal_text(refusal: u16, at: Option<u16>) -> Line
    ensures { result ≡ refusal_text refusal at }
{
    let mut line = Line::new();
    if refusal == 0 {
        return line;
    }
    line.push_labelled(b"refused ", refusal);
    if let Some(number) = at {
        line.push_labelled(b" at record ", number);
    }
    line.push(b'\n');
    line
}

// The line of what stopped a replay, or the writing of a trace. It is a function and no `Display`, as `window_line` is: a line's text is
// promised by an equation, which `fmt` of the kit doesn't give (crates/line says what was tried), and there is no heap for a `String`.
pub fn refusal_line(stop: Stop) -> Line
    ensures { result ≡ refusal_text (stop_refusal stop) (stopped_at stop) }
{
    refusal_text(stop.refusal().into(), stop.record())
}
