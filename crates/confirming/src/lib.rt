// What a station sent in a window, and which blocks of it the reply confirms: the verdict that a scheduler acts on (document 02, U10).
#![tactic(auto)]

mod blocks;
mod checks;

ghost use Rattle.std.specs.Prelude.{◌≡◌, length};
ghost use Rattle.std.specs.Iterator.Adapters.{zip_first, zip_second};
ghost use Rattle.std.specs.Slice.Iter.{iter_rest};
ghost use Rattle.confirmation.specs.Confirmed.{acknowledged};
ghost use Rattle.confirmation.specs.Sent.{is_pdcch, is_block, has_cce, as_heard, told_of};
ghost use Rattle.frame.specs.Refusals.{numbered};
ghost use Rattle.confirming.specs.Blocks.{confirmed_as, read_sent, confirmed_of};
ghost use Rattle.confirming.specs.Coded.{k_in, records_in, send_in};
ghost use Rattle.confirming.specs.Records.{send_of};
ghost use Rattle.confirming.specs.Refusals.{blocks_sent};

pub use blocks::{Blocks, Positions};
use frame::{Refusal, Settings};
use heard::{Grant, Heard, Release, ScheduledBlock};
use resource::{Cce, Resource};
use station::Reading;
use std::iter::Zip;
use std::slice::Iter;

// What the station sent in one subframe of a window. A PDCCH was sent where `signalled` is not 0: a grant if it carries blocks, a
// release if it carries none. Blocks without a PDCCH are a scheduled block; neither is nothing. `cce` and `dai` are a PDCCH's, and
// `itbs0` and `nprb0` I_TBS and N_PRB of the first block or the only one, `itbs1` and `nprb1` those of the second. It is no enum, and
// `signalled` no bool, since a C caller fills it with any numbers.
#[repr(C)]
#[derive(Clone, Copy, Debug, PartialEq, Eq)]
pub struct Sent {
    pub signalled: u16,
    pub blocks: u16,
    pub cce: Cce,
    pub dai: u16,
    pub itbs0: u16,
    pub nprb0: u16,
    pub itbs1: u16,
    pub nprb1: u16,
}

impl Sent {
    // A PDCCH was sent.
    #[tactic(auto, using(crate::proofs::Records::pdcch_of))]
    pub fn is_pdcch(&self) -> bool
        ensures { result ≡ is_pdcch (send_of self.now) }
    {
        self.signalled != 0
    }

    // A PDCCH with first CCE c was sent.
    #[tactic(auto, using(crate::proofs::Records::cce_of, crate::proofs::Records::pdcch_of, frame::proofs::Causes::decided))]
    pub fn has_cce(&self, c: Cce) -> bool
        ensures { result ≡ has_cce (send_of self.now) c.0 }
    {
        self.is_pdcch() && self.cce == c
    }

    // A scheduled block was sent.
    #[tactic(auto, using(crate::proofs::Records::block_of, frame::proofs::Causes::decided))]
    pub fn is_block(&self) -> bool
        ensures { result ≡ is_block (send_of self.now) }
    {
        (self.signalled == 0) & (self.blocks != 0)
    }

    // The bits acknowledge a block, 0 the first and 1 the second: of two bit 0 the first and bit 1 the second, and either a sole one. A
    // block is a number and no enum: that a record carries it is a comparison with how many it carries.
    #[tactic(auto, using(crate::proofs::Records::blocks_of_holds, frame::proofs::Causes::decided))]
    pub fn is_acknowledged(&self, block: u16, b0: u16, b1: u16) -> bool
        ensures { result ≡ acknowledged (send_of self.now) block b0 b1 }
    {
        let own = if block == 0 { b0 } else { b1 };
        let either = (b0 == 1) | (b1 == 1);
        let two = self.blocks == 2;
        (two & (own == 1)) | (!two & either)
    }
}

// What a record says, as a feed would bring it.
impl From<Sent> for Heard {
    ghost from_gives = { λ x heard. heard ≡ as_heard (send_of x) };

    #[tactic(auto, using(frame::proofs::Causes::decided), unfolding(crate::specs::Records::send_of))]
    fn from(x: Sent) -> Heard {
        let Sent {
            blocks,
            cce,
            dai,
            ..
        } = x;
        match (x.signalled, blocks) {
            (0, 0) => Heard::Nothing,
            (0, _) => Heard::Scheduled(ScheduledBlock {
                blocks,
                first: false,
                second: false,
            }),
            (_, 0) => Heard::Released(Release { cce, dai }),
            _ => Heard::Granted(Grant {
                blocks,
                first: false,
                second: false,
                cce,
                dai,
            }),
        }
    }
}

// What the station sent in a window, by position; the records from M on are ignored.
#[repr(C)]
#[derive(Clone, Copy, Debug, PartialEq, Eq)]
pub struct SentWindow {
    pub at: [Sent; 9],
}

// What was sent in the window of uplink subframe n, in a cell with these settings.
#[derive(Clone, Copy)]
pub struct SentIn<'a> {
    pub settings: Settings,
    pub n: u16,
    pub sent: &'a SentWindow,
}

impl<'a> SentIn<'a> {
    // K of the window; for itself, as `frame::Window` says.
    fn ks(self) -> &'static [u16]
        ensures { result.now ≡ k_in self.entry }
    {
        frame::window_of(self.settings.config, self.n)
    }

    // The records of the window's positions.
    #[tactic(auto, using(frame::proofs::Windows::window_size))]
    pub fn records(self) -> &'a [Sent]
        ensures value { result.now ≡ records_in self.entry }
        ensures size { length result.now ≡ length (k_in self.entry) }
    {
        &self.sent.at[..self.ks().len()]
    }

    // Each k of the window beside the record of what was sent k before the reply.
    pub fn subframes(self) -> Zip<Iter<'static, u16>, Iter<'a, Sent>>
        ensures ks { iter_rest (zip_first result) ≡ k_in self.entry }
        ensures records { iter_rest (zip_second result) ≡ records_in self.entry }
        ensures size { length (records_in self.entry) ≡ length (k_in self.entry) }
    {
        self.ks().iter().zip(self.records())
    }

    // How many scheduled blocks were sent.
    fn scheduled_blocks(self) -> usize
        ensures { result ≡ blocks_sent (send_in self.entry) (k_in self.entry) }
    {
        self.records()
            .iter()
            .map(|x| usize::from(x.is_block()))
            .sum()
    }

    // The position of the first scheduled block that was sent, if one was.
    #[tactic(auto, using(frame::proofs::Windows::window_size))]
    fn told(self) -> Option<u16>
        ensures { result ≡ told_of (k_in self.entry) (send_in self.entry) }
    {
        let first = self.records().iter().position(|x| x.is_block())?;
        Some(first as u16)
    }

    // The reading of the reply, which came on resource r with the bits b0 and b1.
    #[tactic(auto, using(crate::proofs::Checking::sent_refused, crate::proofs::Checking::sent_told))]
    fn read(self, r: Resource, b0: u16, b1: u16) -> Result<Reading, Refusal>
        ensures { numbered result ≡ read_sent self.entry.settings self.entry.n self.entry.sent.now r.0 b0 b1 }
    {
        let told = self.check()?;
        station::read(self.settings, self.n, told, r, b0, b1)
    }
}

// The blocks of a sent window that the reply confirms. Sizes are not looked at. Settings, n and what was sent come apart, as from C.
#[tactic(auto, unfolding(crate::specs::Blocks::confirmed_of))]
pub fn confirm(
    s: Settings,
    n: u16,
    sent: &SentWindow,
    r: Resource,
    b0: u16,
    b1: u16,
) -> Result<Blocks, Refusal>
    ensures { confirmed_as result ≡ confirmed_of s n sent.now r.0 b0 b1 }
{
    let window = SentIn {
        settings: s,
        n,
        sent,
    };
    window.confirmed(window.read(r, b0, b1))
}
