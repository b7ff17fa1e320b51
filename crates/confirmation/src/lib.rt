// What a station sent in a window, and which blocks its reading of the reply confirms: the definition in specs/Confirmed.antt.
// The types of what was sent stand here, below the third demand's theorem and beside no handset, so that a station's code has them.
#![tactic(auto)]

use resource::Cce;

// A grant as the station sent it: the blocks it carries, its first CCE and its DAI.
#[derive(Clone, Copy, Debug, PartialEq, Eq)]
pub struct SentGrant {
    pub blocks: u16,
    pub cce: Cce,
    pub dai: u16,
}

// A scheduled block as the station sent it, with no PDCCH: the blocks it carries.
#[derive(Clone, Copy, Debug, PartialEq, Eq)]
pub struct SentBlock {
    pub blocks: u16,
}

// A PDCCH that releases the schedule, as the station sent it: its first CCE and its DAI. It has the fields of `heard::Release` and is not
// that type, as the other two are not: what was sent and what was heard are told apart in every definition.
#[derive(Clone, Copy, Debug, PartialEq, Eq)]
pub struct SentRelease {
    pub cce: Cce,
    pub dai: u16,
}

// What the station sent in a subframe.
#[derive(Clone, Copy, Debug, PartialEq, Eq)]
pub enum Send {
    Nothing,
    Granted(SentGrant),
    Scheduled(SentBlock),
    Released(SentRelease),
}
