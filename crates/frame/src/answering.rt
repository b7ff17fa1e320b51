// The answer for one downlink subframe: Table 10.1-1 read the other way round.
ghost use Rattle.std.specs.Prelude.{◌≡◌};
ghost use Rattle.frame.specs.Distance.{answered_of, before, shares};
ghost use Rattle.frame.specs.Refusals.{numbered};

use crate::table::{answer_of, distance_of};
use crate::{Answered, Refusal, Settings};

// The subframe k before n, by its number in the frame.
pub fn before(n: u16, k: u16) -> u16
    ensures { result ≡ before n k }
{
    (n % 10 + 9 * (k % 10)) % 10
}

impl Settings {
    // The uplink subframe that answers for subframe d, how far it is from d, and d's position in its window: or the first of refusals 1 to
    // 6, 17, 19 and 24 that the settings meet, then 7 for a subframe d that is not downlink, which has no k.
    #[tactic(auto, using(crate::proofs::Answers::answer_refused, crate::proofs::Answers::none_refused, crate::proofs::Answers::answer_told))]
    pub fn answered(self, d: u16) -> Result<Answered, Refusal>
        ensures { numbered result ≡ answered_of self d }
    {
        self.check()?;
        let answer = answer_of(self.config, d);
        if answer.k == 0 {
            return Err(Refusal::Subframe);
        }
        Ok(answer)
    }
}

// The subframe a before n is answered in the same uplink subframe as n.
pub fn shares_window(config: u16, n: u16, a: u16) -> bool
    ensures { result ≡ shares config n a }
{
    if 13 < a {
        return false;
    }
    distance_of(config, n) + a == distance_of(config, before(n, a))
}
