// A handset that is known to be sound (document 01, "The running handset"): it was made and fed by the code, and no C caller has lent it.
// So a feed of it does not test the whole state again, which is most of the work of a feed.
ghost use Rattle.std.specs.Prelude.{◌≡◌, IfOk};
ghost use Rattle.frame.specs.Refusals.{refusal_in, number_in, numbered};
ghost use Rattle.handset.specs.Feed.{feed_refusal, feed_of};
ghost use Rattle.handset.specs.Make.{make_of};
ghost use Rattle.handset.specs.Sound.{state_refusal};

use crate::Handset;
use frame::{Refusal, Settings};
use heard::Heard;
use reply::Answer;

// A handset that 8 does not refuse.
#[derive(Clone, Copy)]
pub struct Running {
    pub handset: Handset,
    pub ghost sound: { state_refusal handset ≡ 0 },
}

impl Running {
    // A fresh handset, or the first of refusals 1 to 6, 17, 19 and 24 that the settings meet.
    #[tactic(auto, using(crate::proofs::Kept::made_sound, crate::proofs::Kept::made_refusal, crate::proofs::Kept::made_handset))]
    pub fn new(settings: Settings) -> Result<Running, Refusal>
        ensures refusal { refusal_in result ≡ (make_of settings).refusal }
        ensures made { IfOk result (λ running. running.handset ≡ (make_of settings).handset) }
    {
        let handset = Handset::new(settings)?;
        Ok(Running { handset })
    }

    // 9 to 12, 18 and 20 for what is brought in the subframe that is expected. 8 is not met.
    #[tactic(auto, using(crate::proofs::Kept::cause_alone))]
    fn check_feed(&self, x: Heard) -> Result<(), Refusal>
        ensures { refusal_in result ≡ feed_refusal self.now.handset x }
    {
        self.handset.memory().check_cause(x)
    }

    // The answer to what the next subframe heard, which is then remembered, as `Handset::feed` gives it. Its body and that of `take` are
    // two, and neither calls the other: so the compiler puts each into the loop that alone calls it.
    #[tactic(auto, using(frame::proofs::Refused::from_one, crate::proofs::Kept::pushed_sound), unfolding(crate::specs::Feed::feed_of))]
    pub fn feed(&mut self, x: Heard) -> Result<Answer, Refusal>
        ensures answer { numbered result ≡ (feed_of self.old.handset x).answer }
        ensures after { self.new.handset ≡ (feed_of self.old.handset x).handset }
    {
        self.check_feed(x)?;
        let answer = self.handset.next_answer();
        self.handset.push(x);
        Ok(answer)
    }

    // A feed whose answer is not asked for, so that none is made.
    #[tactic(auto, using(frame::proofs::Refused::from_one, crate::proofs::Kept::pushed_sound), unfolding(crate::specs::Feed::feed_of))]
    pub fn take(&mut self, x: Heard) -> Result<(), Refusal>
        ensures refusal { refusal_in result ≡ number_in (feed_of self.old.handset x).answer }
        ensures after { self.new.handset ≡ (feed_of self.old.handset x).handset }
    {
        self.check_feed(x)?;
        self.handset.push(x);
        Ok(())
    }
}
