// Feeding a handset what the next subframe heard (document 01, "The running handset"; refusals 8 to 12; document 02, U1, 18, U2, 20,
// and U8).
ghost use Rattle.std.specs.Prelude.{◌≡◌};
ghost use Rattle.frame.specs.Refusals.{refusal_in, numbered};
ghost use Rattle.heard.specs.Memory.{results_of, slot_of};
ghost use Rattle.handset.specs.Feed.{next_answer, pushed, feed_refusal, feed_of};
ghost use Rattle.handset.specs.Stored.{Storable};

use crate::Handset;
use frame::Refusal;
use heard::{Heard, Memory, Slot, SlotKind};
use reply::Answer;

// Bit 0 for the first block, bit 1 for the second, bit 2 for two blocks carried.
fn results_of(first: bool, second: bool, blocks: u16) -> u8
    ensures { result ≡ results_of first second blocks }
{
    let one = first as u8;
    let other = second as u8;
    let two = (blocks == 2) as u8;
    one + 2 * other + 4 * two
}

// What is remembered of a subframe. It is no `TryFrom`: a feed stores what it accepted alone, and would have no use for an error.
#[tactic(auto, unfolding(heard::specs::Memory::slot_of))]
fn slot_of(x: Heard) -> Slot
    requires { Storable x }
    ensures { result ≡ slot_of x }
{
    match x {
        Heard::Nothing => Slot::default(),
        Heard::Granted(g) => Slot {
            kind: SlotKind::Grant as u8,
            cce: g.cce.number() as u8,
            dai: g.dai as u8,
            results: results_of(g.first, g.second, g.blocks),
        },
        Heard::Scheduled(b) => Slot {
            kind: SlotKind::Block as u8,
            results: results_of(b.first, b.second, b.blocks),
            ..Slot::default()
        },
        Heard::Released(p) => Slot {
            kind: SlotKind::Release as u8,
            cce: p.cce.number() as u8,
            dai: p.dai as u8,
            ..Slot::default()
        },
    }
}

impl Handset {
    // 8, then 9, 20, 10 to 12 and 18 for what is brought in the subframe that is expected.
    #[tactic(auto, using(frame::proofs::Refused::first_refused, frame::proofs::Refused::first_accepted), unfolding(crate::specs::Feed::feed_refusal))]
    fn check_feed(&self, x: Heard) -> Result<(), Refusal>
        ensures { refusal_in result ≡ feed_refusal self.now x }
    {
        self.check_state()?;
        self.memory().check_cause(x)
    }

    // The answer at the subframe that is expected: "taken" in a downlink one, else what its window says.
    #[tactic(auto, unfolding(crate::specs::Feed::next_answer, crate::specs::Feed::answer_of, crate::specs::Feed::window_settings))]
    pub(crate) fn next_answer(&self) -> Answer
        ensures { result ≡ next_answer self.now }
    {
        if frame::is_downlink(self.settings.config, self.next) {
            return Answer::Taken;
        }
        let settings = self.window_settings();
        reply::answer_in(Memory {
            settings: &settings,
            ..self.memory()
        })
    }

    // The subframe is remembered, in the mode that stands; after 9 comes 0.
    pub(crate) fn push(&mut self, x: Heard)
        requires { feed_refusal self.old x ≡ 0 }
        ensures { self.new ≡ pushed self.old x }
    {
        self.past.copy_within(..12, 1);
        self.past[0] = slot_of(x);
        self.next = (self.next + 1) % 10;
        self.modes = self.modes % 4096 * 2 + self.settings.mode;
    }

    // The answer to what the next subframe heard, which is then remembered; a refusal leaves the handset as it was.
    #[tactic(auto, using(frame::proofs::Refused::from_one), unfolding(crate::specs::Feed::feed_of))]
    pub fn feed(&mut self, x: Heard) -> Result<Answer, Refusal>
        ensures answer { numbered result ≡ (feed_of self.old x).answer }
        ensures after { self.new ≡ (feed_of self.old x).handset }
    {
        self.check_feed(x)?;
        let answer = self.next_answer();
        self.push(x);
        Ok(answer)
    }
}
