// The reply of a window (document 01, "The bundled reply" and "The multiplexed reply"; document 02, U1 and U9).
ghost use Rattle.std.specs.Prelude.{◌≡◌, ◌≤◌};
ghost use Rattle.frame.specs.Refusals.{numbered};
ghost use Rattle.symbols.specs.Coded.{state_digit, code_of};
ghost use Rattle.heard.specs.Memory.{bit, ks_in, view_in, views_in};
ghost use Rattle.reply.specs.Kinds.{kind_bundled};
ghost use Rattle.reply.specs.Replies.{reply_on, miss_shown, second_bit, on_scheduled, lone_answer, bundled_answer};
ghost use Rattle.reply.specs.Replies.{state_of, carrier_of, window_state, multiplexed_answer, window_answer};

use crate::{Answer, Reply, ReplyKind};
use fold::Seen;
use frame::{Refusal, Settings};
use heard::{Memory, Slot, View};
use resource::{Cce, Resource};

// A reply on the resource that the map gives; nothing is sent where it gives none.
#[tactic(auto, unfolding(crate::specs::Replies::reply_on))]
fn reply_on(
    s: Settings,
    kind: ReplyKind,
    mapped: Result<Resource, Refusal>,
    b0: u16,
    b1: u16,
) -> Answer
    ensures { result ≡ reply_on s kind (numbered mapped) b0 b1 }
{
    match mapped {
        Ok(resource) => Answer::Sent(Reply {
            kind,
            resource,
            b0,
            b1,
            second: resource::second_port(s, resource),
        }),
        Err(_) => Answer::Silent,
    }
}

// A miss is shown by V: it is not the DAI that the last of U PDCCHs has where none was missed.
#[tactic(auto, unfolding(crate::specs::Replies::miss_shown))]
fn miss_shown(s: Settings, seen: Seen) -> bool
    ensures { result ≡ miss_shown s seen }
{
    s.config != 0 && seen.v != seen.expected()
}

#[tactic(auto, using(frame::proofs::Bools::cast_bit), unfolding(crate::specs::Replies::second_bit))]
fn second_bit(s: Settings, seen: Seen) -> u16
    ensures { result ≡ second_bit s seen }
{
    if s.blocks == 2 {
        return seen.second as u16;
    }
    0
}

// The resource configured for scheduled blocks.
fn on_scheduled(s: Settings) -> Result<Resource, Refusal>
    ensures { numbered result ≡ on_scheduled s }
{
    Ok(Resource::new(s.scheduled))
}

// A bundled reply with each block's AND, on the resource that the map gives.
#[tactic(auto, using(frame::proofs::Bools::cast_bit))]
fn bundled_on(s: Settings, mapped: Result<Resource, Refusal>, seen: Seen) -> Answer
    ensures { result ≡ reply_on s kind_bundled (numbered mapped) (bit seen.first) (second_bit s seen) }
{
    let b0 = seen.first as u16;
    let b1 = second_bit(s, seen);
    reply_on(s, ReplyKind::Bundled, mapped, b0, b1)
}

// The bundled reply where no PDCCH was heard: that of a lone scheduled block, or silence.
#[tactic(auto, unfolding(crate::specs::Replies::lone_answer))]
fn lone_answer(s: Settings, seen: Seen) -> Answer
    ensures { result ≡ lone_answer s seen }
{
    if !seen.scheduled {
        return Answer::Silent;
    }
    bundled_on(s, on_scheduled(s), seen)
}

// The bundled reply, from what the fold over the window found. Settings and n are two parameters here and below, as in the checks of
// `heard`: the slots of a `Memory` are not asked for.
#[tactic(auto, unfolding(crate::specs::Replies::bundled_answer))]
fn bundled_answer(s: Settings, n: u16, seen: Seen) -> Answer
    ensures { result ≡ bundled_answer s n seen }
{
    if seen.u == 0 {
        return lone_answer(s, seen);
    }
    if miss_shown(s, seen) {
        return Answer::Silent;
    }
    let mapped = resource::resource_of(s, n, seen.position, seen.cce);
    bundled_on(s, mapped, seen)
}

// The digit of a position's state: 0 for A, 1 for N, 2 for D. It is found with no branch on the slot's kind, for speed.
fn digit_of(t: Slot) -> u16
    ensures { result ≡ state_digit (state_of (view_in t)) }
{
    let heard = t.heard_pdcch() | t.heard_block();
    let failed = t.first_failed() | t.second_failed();
    if heard { failed as u16 } else { 2 }
}

// The resource of position m in the window of n: that of a PDCCH's first CCE, or the one configured for scheduled blocks.
#[tactic(auto, unfolding(crate::specs::Replies::carrier_of))]
fn carrier_of(s: Settings, n: u16, m: u16, x: View) -> Result<Resource, Refusal>
    ensures { numbered result ≡ carrier_of s n m x }
{
    match x {
        View::Unheard => resource::resource_of(s, n, m, Cce::new(0)),
        View::Pdcch(g) => resource::resource_of(s, n, m, g.cce),
        View::Block(_) => on_scheduled(s),
    }
}

// The number of the window's state: a base-3 digit for each position, position 0 first.
#[tactic(auto, using(crate::proofs::Multiplexing::code_small, crate::proofs::Multiplexing::code_end, crate::proofs::Multiplexing::digit_most), unfolding(crate::specs::Replies::window_state))]
fn code_of(memory: Memory) -> u16
    ensures { result ≡ code_of (window_state (views_in memory.entry) (ks_in memory.entry)) }
{
    let mut code = 0;
    for &k in memory.ks() {
        code = code * 3 + digit_of(memory.slot_ago(k));
    }
    code
}

// The multiplexed reply: the symbol of the window's state, on the resource of its index.
#[tactic(auto, using(crate::proofs::Multiplexing::window_small, crate::proofs::Multiplexing::index_small, crate::proofs::Multiplexing::index_k, crate::proofs::Multiplexing::symbol_silent, crate::proofs::Multiplexing::symbol_sent))]
fn multiplexed_answer(memory: Memory) -> Answer
    ensures { result ≡ multiplexed_answer memory.entry.settings.now memory.entry.n (views_in memory.entry) (ks_in memory.entry) }
{
    let (s, n) = (*memory.settings, memory.n);
    let ks = memory.ks();
    let code = code_of(memory);
    let Some(symbol) = symbols::symbol_of(ks.len() as u16, code) else {
        return Answer::Silent;
    };
    let view = memory.view_ago(ks[symbol.index as usize]);
    let mapped = carrier_of(s, n, symbol.index, view);
    reply_on(s, ReplyKind::Multiplexed, mapped, symbol.b0, symbol.b1)
}

// The answer of the subframe that a memory stands before: the bundled or the multiplexed reply of its window, silence, or "no window"
// where the table has none for it. Settings and slots are taken as they are: no refusal is given here, and a reply whose resource
// the map refuses is silence. `Handset::feed` asks only of a state that 8 accepts, in an uplink subframe.
#[tactic(auto, unfolding(crate::specs::Replies::window_answer))]
pub fn answer_in(memory: Memory) -> Answer
    ensures { result ≡ window_answer memory.entry.settings.now memory.entry.n (views_in memory.entry) }
{
    let (s, n) = (*memory.settings, memory.n);
    let size = frame::size_of(s.config, n);
    if size == 0 {
        return Answer::NoWindow;
    }
    if s.is_bundled(size) {
        return bundled_answer(s, n, fold::seen_in(memory));
    }
    multiplexed_answer(memory)
}
