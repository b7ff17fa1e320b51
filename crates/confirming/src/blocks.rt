// Which blocks of a sent window a reading confirms (confirmation/specs/Confirmed.antt).
ghost use Rattle.std.specs.Prelude.{◌≡◌, ◌<◌};
ghost use Rattle.confirmation.specs.Confirmed.{sent_up_to};
ghost use Rattle.frame.specs.Order.{times_of};
ghost use Rattle.frame.specs.Refusals.{numbered};
ghost use Rattle.confirming.specs.Blocks.{confirmed_as, confirmed_by};
ghost use Rattle.confirming.specs.Coded.{in_set, k_in, send_in, holds_by, named_by, acks_of, confirms_by, confirmed_set};
ghost use Rattle.confirming.specs.Records.{send_of};

use crate::{Sent, SentIn};
use frame::Refusal;
use station::{Place, Reading};

// A set of positions, bit m for position m. A reading has the number alone, as C and the definitions do.
#[derive(Clone, Copy, Debug, Default, PartialEq, Eq)]
pub struct Positions(pub u16);

impl Positions {
    #[tactic(auto, using(crate::proofs::Sets::none_beyond, frame::proofs::Causes::decided))]
    pub fn contains(self, m: usize) -> bool
        ensures { result ≡ in_set self.0 m }
    {
        (m < 16) & ((self.0 >> (m % 16)) % 2 == 1)
    }
}

// Blocks as sets of positions: the first block there or the only one, and the second.
#[derive(Clone, Copy, Debug, Default, PartialEq, Eq)]
pub struct Blocks {
    pub first: Positions,
    pub second: Positions,
}

// What a bundled reading names, by how many subframes before the reply it was sent: a PDCCH, and whether at most four PDCCHs were
// sent up to and with it; or a scheduled block.
#[derive(Clone, Copy)]
enum Named {
    Pdcch(u16, bool),
    Block(u16),
}

impl Named {
    // A bundled ACK that names it holds for what was sent k before the reply.
    #[tactic(auto, using(frame::proofs::Causes::decided), unfolding(crate::specs::Coded::holds_by))]
    fn holds(self, k: u16, x: &Sent) -> bool
        ensures { result ≡ holds_by self k (send_of x.now) }
    {
        match self {
            Named::Pdcch(named, few) => x.is_pdcch() & ((k == named) | (few & (named <= k))),
            Named::Block(named) => k == named,
        }
    }
}

// What a reading acknowledges, where what it names was sent: the bits of a bundled one for what it names, or the positions of a
// multiplexed one.
#[derive(Clone, Copy)]
enum Acks {
    Bits(Named, u16, u16),
    Positions(Positions),
}

impl Acks {
    // The reading confirms a block of what was sent k before the reply, at position m: it carries the block, which is acknowledged. Neither
    // this nor what it asks has a branch on what was sent, which no processor foresees, for speed.
    #[tactic(auto, using(crate::proofs::Records::blocks_of_holds, frame::proofs::Causes::decided), unfolding(crate::specs::Coded::confirms_by))]
    fn confirms(self, k: u16, m: usize, x: &Sent, block: u16) -> bool
        ensures { result ≡ confirms_by self k m (send_of x.now) block }
    {
        (block < x.blocks)
            & match self {
                Acks::Bits(named, b0, b1) => {
                    named.holds(k, x) & x.is_acknowledged(block, b0, b1)
                }
                Acks::Positions(positions) => positions.contains(m),
            }
    }
}

impl SentIn<'_> {
    // How many PDCCHs of the window were sent up to and with the subframe k before the reply, releases counted.
    fn pdcchs_up_to(self, k: u16) -> usize
        ensures { result ≡ sent_up_to (send_in self.entry) k (times_of (k_in self.entry)) }
    {
        self.subframes()
            .map(|(at, x)| usize::from((k <= *at) & x.is_pdcch()))
            .sum()
    }

    // What a reading names, if that was sent.
    fn named(self, place: Place) -> Option<Named>
        ensures { result ≡ named_by (k_in self.entry) (send_in self.entry) place }
    {
        let m = usize::from(place.position());
        let (k, x) = self.subframes().nth(m)?;
        match place {
            Place::Pdcch(_, c) if x.has_cce(c) => Some(Named::Pdcch(
                *k,
                self.pdcchs_up_to(*k) <= 4,
            )),
            Place::Block(_) if x.is_block() => Some(Named::Block(*k)),
            _ => None,
        }
    }

    // What a reading acknowledges; nothing where what it names was not sent.
    #[tactic(auto, unfolding(crate::specs::Coded::acks_of))]
    fn acks(self, reading: Reading) -> Option<Acks>
        ensures { result ≡ acks_of (k_in self.entry) (send_in self.entry) reading }
    {
        match reading {
            Reading::Bundled(place, b0, b1) => {
                self.named(place).map(|named| Acks::Bits(named, b0, b1))
            }
            Reading::Multiplexed(place, positions) => {
                self.named(place)
                    .map(|_| Acks::Positions(Positions(positions)))
            }
        }
    }

    // The blocks that are confirmed, position by position. First and second blocks are found in one pass, for speed: with a pass for each
    // `feedback_confirmed` takes a tenth to a fifth more time.
    fn confirmed_by(self, acks: Acks) -> Blocks
        ensures first { result.first.0 ≡ confirmed_set (k_in self.entry) (send_in self.entry) acks 0 }
        ensures second { result.second.0 ≡ confirmed_set (k_in self.entry) (send_in self.entry) acks 1 }
    {
        let mut first = 0;
        let mut second = 0;
        for (m, (k, x)) in self.subframes().enumerate() {
            first += u16::from(acks.confirms(*k, m, x, 0)) << m;
            second += u16::from(acks.confirms(*k, m, x, 1)) << m;
        }
        Blocks {
            first: Positions(first),
            second: Positions(second),
        }
    }

    // The blocks that the reading of the reply confirms. A refused one confirms none, and its refusal is answered.
    #[tactic(auto, using(crate::proofs::Confirming::blocks_confirmed, crate::proofs::Confirming::none_confirmed))]
    pub fn confirmed(self, reading: Result<Reading, Refusal>) -> Result<Blocks, Refusal>
        ensures { confirmed_as result ≡ confirmed_by (k_in self.entry) (send_in self.entry) (numbered reading) }
    {
        match self.acks(reading?) {
            Some(acks) => Ok(self.confirmed_by(acks)),
            None => Ok(Blocks::default()),
        }
    }
}
