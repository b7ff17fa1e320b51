// The station's reading of a reply (document 01, "The station's reading"; document 02, U1 and U2). The settings' mode is that
// of the reply's window (U8).
#![tactic(auto)]

ghost use Rattle.std.specs.Prelude.{◌≡◌};
ghost use Rattle.frame.specs.Refusals.{refusal_in, numbered};
ghost use Rattle.resource.specs.Calls.{inverse_of};
ghost use Rattle.station.specs.Coded.{pdcch_place, place_of};
ghost use Rattle.station.specs.Readings.{place_position, bundled_reading, read_at, told_refusal, read_of};

use frame::{Refusal, Settings, Window};
use resource::{Cce, Map, Resource};
use symbols::Symbol;

// What a reply is read as: the PDCCH at a position, with its first CCE, or the scheduled block at a position.
#[derive(Clone, Copy, Debug, PartialEq, Eq)]
pub enum Place {
    Pdcch(u16, Cce),
    Block(u16),
}

impl Place {
    // The position of what a reply is read as.
    pub fn position(self) -> u16
        ensures { result ≡ place_position self }
    {
        match self {
            Place::Pdcch(m, _) => m,
            Place::Block(m) => m,
        }
    }
}

// What a reply says: what it is read as, with the ACK bits of a bundled reply, or with the delivered positions of a multiplexed one,
// bit p for position p.
#[derive(Clone, Copy, Debug, PartialEq, Eq)]
pub enum Reading {
    Bundled(Place, u16, u16),
    Multiplexed(Place, u16),
}

// The bits of a bundled reply that is read as `place`.
#[tactic(auto, unfolding(crate::specs::Readings::bad_bits, crate::specs::Readings::bundled_reading))]
fn read_bundled(s: Settings, place: Place, b0: u16, b1: u16) -> Result<Reading, Refusal>
    ensures { numbered result ≡ bundled_reading s place b0 b1 }
{
    if 1 < b0 || 1 < b1 || (s.blocks == 1 && b1 == 1) {
        return Err(Refusal::Bits);
    }
    Ok(Reading::Bundled(place, b0, b1))
}

// The reading at a place in a window of `size` positions.
#[tactic(auto, unfolding(crate::specs::Readings::read_at, crate::specs::Readings::multiplexed_reading))]
fn read_at(s: Settings, size: u16, place: Place, b0: u16, b1: u16) -> Result<Reading, Refusal>
    ensures { numbered result ≡ read_at s size place b0 b1 }
{
    if s.is_bundled(size) {
        return read_bundled(s, place, b0, b1);
    }
    let symbol = Symbol {
        index: place.position(),
        b0,
        b1,
    };
    match symbols::delivered(size, symbol) {
        Some(positions) => Ok(Reading::Multiplexed(place, positions)),
        None => Err(Refusal::Bits),
    }
}

// What a told position m is refused by: 11, 20 and 18.
#[tactic(auto, unfolding(crate::specs::Readings::told_refusal))]
fn check_told(window: Window, m: u16) -> Result<(), Refusal>
    ensures { refusal_in result ≡ told_refusal window.settings window.n (Some m) }
{
    let s = window.settings;
    if window.size <= m {
        return Err(Refusal::Cce);
    }
    if s.position_too_short(window.n, m) {
        return Err(Refusal::Short);
    }
    if !s.has_scheduled() {
        return Err(Refusal::Scheduled);
    }
    Ok(())
}

// The place of a dynamic resource.
#[tactic(auto, using(crate::proofs::Placed::dynamic_refused, crate::proofs::Placed::dynamic_placed))]
fn dynamic_place(window: Window, r: Resource) -> Result<Place, Refusal>
    ensures { numbered result ≡ pdcch_place (inverse_of window.settings window.n r.0) }
{
    let (m, c) = Map::of(window).inverse(r)?;
    Ok(Place::Pdcch(m, c))
}

// The place of a reply: where a position is told, the scheduled resource is the block there, and any other is dynamic. It is part of
// `read`, for speed: else the window would go there through memory.
#[inline(always)]
#[tactic(auto, using(frame::proofs::Refused::result_refused, frame::proofs::Refused::result_accepted, crate::proofs::Placed::place_tested), unfolding(crate::specs::Readings::told_refusal))]
fn place_of(window: Window, told: Option<u16>, r: Resource) -> Result<Place, Refusal>
    ensures { numbered result ≡ place_of window.settings window.n told r.0 }
{
    let Some(m) = told else {
        return dynamic_place(window, r);
    };
    check_told(window, m)?;
    if r.number() == window.settings.scheduled {
        return Ok(Place::Block(m));
    }
    dynamic_place(window, r)
}

// The reply that came on resource r in uplink subframe n with the bits b0 and b1, the second 0 in a one-bit reply. `told` is the
// position of the scheduled block that was sent in the window, if one was. Resource and bits are three numbers here, in `confirm`
// and in `credit`, as the C interface and the definitions have them: a struct of them would be built by each call and taken apart here.
// It is part of each caller: so the settings are read where they lie, and the answer is not put together here and taken apart there.
#[inline(always)]
#[tactic(auto, using(crate::proofs::Placed::window_refused, crate::proofs::Placed::place_refused, crate::proofs::Placed::place_read))]
pub fn read(
    s: Settings,
    n: u16,
    told: Option<u16>,
    r: Resource,
    b0: u16,
    b1: u16,
) -> Result<Reading, Refusal>
    ensures { numbered result ≡ read_of s n told r.0 b0 b1 }
{
    let window = Window::new(s, n)?;
    let place = place_of(window, told, r)?;
    read_at(s, window.size, place, b0, b1)
}
