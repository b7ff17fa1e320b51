// One record: where it stands, and what of it is used.
ghost use Rattle.std.specs.Prelude.{◌<◌, ◌^◌, ◌≡◌, cond, leb, IfOk, IfSome};
ghost use Rattle.frame.specs.Refusals.{refusal_in, numbered};
ghost use Rattle.reader.specs.Reading.{heard_of};
ghost use Rattle.reader.specs.Record.{slot_at, used_results, used_in, used_of, record_of};

use frame::Refusal;
use heard::{Heard, Slot, SlotKind};

// The four bytes from `at` on.
#[tactic(auto, unfolding(crate::specs::Record::slot_at))]
pub(crate) fn slot_at(trace: &[u8], at: usize) -> Slot
    requires { at < 2 ^ 32 }
    ensures { result ≡ slot_at trace.now at }
{
    Slot {
        kind: trace::byte_at(trace, at),
        cce: trace::byte_at(trace, at + 1),
        dai: trace::byte_at(trace, at + 2),
        results: trace::byte_at(trace, at + 3),
    }
}

// The bits of the results that count: the second block's only with two blocks.
#[tactic(auto, unfolding(crate::specs::Record::used_results))]
fn used_results(results: u8) -> u8
    ensures { result ≡ used_results results }
{
    if results / 4 % 2 == 1 {
        4 + results % 4
    } else {
        results % 2
    }
}

// 22 for a kind over 3.
fn check_kind(t: Slot) -> Result<(), Refusal>
    ensures { refusal_in result ≡ cond (leb t.kind 3) 0 22 }
{
    if SlotKind::try_from(t.kind).is_err() {
        return Err(Refusal::TraceParts);
    }
    Ok(())
}

// A record with every field and bit that its kind does not use at 0; nothing for a kind over 3. The kinds stand here as the numbers that a
// record has for them, 1 a grant, 2 a scheduled block, 3 a release: by way of a `SlotKind` a replay and the check before a writing take
// some fifth longer.
#[tactic(auto, unfolding(crate::specs::Record::used_in))]
pub(crate) fn used_in(t: Slot) -> Slot
    ensures { result ≡ used_in t }
{
    match t.kind {
        1 => Slot {
            results: used_results(t.results),
            ..t
        },
        2 => Slot {
            cce: 0,
            dai: 0,
            results: used_results(t.results),
            ..t
        },
        3 => Slot { results: 0, ..t },
        _ => Slot::default(),
    }
}

// The same with no branch on the kind, for a caller that goes on alike whatever the kind is: kinds 1 and 3 keep CCE and DAI, 1 and 2 the
// results, and none but these four anything.
#[tactic(auto, using(crate::proofs::Masked::masked))]
pub(crate) fn masked(t: Slot) -> Slot
    ensures { result ≡ used_in t }
{
    let known = (t.kind < 4) as u8;
    let odd = t.kind % 2;
    let pdcch = known * odd;
    let data = known * ((t.kind / 2 + odd) % 2);
    let two = t.results / 4 % 2;
    Slot {
        kind: known * t.kind,
        cce: pdcch * t.cce,
        dai: pdcch * t.dai,
        results: data * (t.results % 2 + two * (t.results / 2 % 2 * 2 + 4)),
    }
}

// What of a record is used, every field and bit that its kind does not use being 0; 22 for a kind over 3.
pub fn used_of(t: Slot) -> Result<Slot, Refusal>
    ensures { numbered result ≡ used_of t }
{
    check_kind(t)?;
    Ok(used_in(t))
}

// The record of number i, for any bytes and any number.
#[tactic(auto, unfolding(crate::specs::Record::record_of, crate::specs::Record::record_slot, crate::specs::Record::read_as))]
pub fn record_at(trace: &[u8], i: usize) -> Result<Option<Slot>, Refusal>
    ensures value { numbered result ≡ record_of trace.now i }
    ensures few { IfOk result (λ found. IfSome found (λ _. i < 65536)) }
{
    trace::check_parts(trace)?;
    let header = trace::header_of(trace);
    if header.records as usize <= i {
        return Ok(None);
    }
    let record = slot_at(trace, header.first as usize + trace::RECORD * i);
    Ok(Some(used_of(record)?))
}

// What the record of number i brings the handset; nothing where there is none or it is refused.
pub fn heard_at(trace: &[u8], i: usize) -> Heard
    ensures { result ≡ heard_of (record_of trace.now i) }
{
    match record_at(trace, i) {
        Ok(Some(record)) => Heard::from(record),
        Ok(None) | Err(_) => Heard::Nothing,
    }
}
