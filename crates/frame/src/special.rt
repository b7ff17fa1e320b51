// Special subframes too short for data (document 02, U2; TS 36.213, section 7.1.7).
ghost use Rattle.std.specs.Prelude.{◌≡◌};
ghost use Rattle.frame.specs.Distance.{subframe_of};
ghost use Rattle.frame.specs.Layout.{is_special};
ghost use Rattle.frame.specs.Refusals.{refusal_in};
ghost use Rattle.frame.specs.Special.{special_refusal, no_pdsch, too_short};

use crate::digits::digit_at;
use crate::table::{digits_in, is_special, size_of, special_of};
use crate::{Refusal, Settings};

// The special configuration allows no PDSCH: 0 and 5 with the normal prefix, 0 and 4 with the extended one, each by a digit 1. A lookup,
// since tests of the numbers would be branches that the processor cannot foretell where settings change.
#[tactic(auto, using(crate::proofs::Lookups::no_pdsch_at))]
pub fn no_pdsch(prefix: u16, special: u16) -> bool
    ensures { result ≡ no_pdsch prefix special }
{
    digit_at(digits_in(&[0x100001, 0x10001], prefix), special) == 1
}

// The subframe at position m of the window of n is special: a lookup, where the subframe itself would be found by its k and a division. A
// position that the window does not have reads as n itself.
#[tactic(auto, using(crate::proofs::Lookups::special_inside, crate::proofs::Lookups::special_beyond))]
fn is_special_at(config: u16, n: u16, m: u16) -> bool
    ensures { result ≡ is_special config (subframe_of config n m) }
{
    if size_of(config, n) <= m {
        return is_special(config, n % 10);
    }
    special_of(config, n) == m + 1
}

impl Settings {
    // The prefix and the special configuration: 19. The last special configuration is 8 with the normal prefix, 6 with the extended one.
    #[tactic(auto, unfolding(crate::specs::Special::special_refusal, crate::specs::Special::last_special))]
    pub fn check_special(self) -> Result<(), Refusal>
        ensures { refusal_in result ≡ special_refusal self }
    {
        if 1 < self.prefix {
            return Err(Refusal::Special);
        }
        if 8 - 2 * self.prefix < self.special {
            return Err(Refusal::Special);
        }
        Ok(())
    }

    // Subframe n is special and too short for data: a release can be sent there, a grant or a scheduled block can't.
    #[tactic(auto, unfolding(crate::specs::Special::too_short))]
    pub fn is_too_short(self, n: u16) -> bool
        ensures { result ≡ too_short self n }
    {
        no_pdsch(self.prefix, self.special) & is_special(self.config, n)
    }

    // The subframe at position m of the window of n is too short for data. Which is special is looked up only where some subframe is.
    #[tactic(auto, unfolding(crate::specs::Special::too_short))]
    pub fn position_too_short(self, n: u16, m: u16) -> bool
        ensures { result ≡ too_short self (subframe_of self.config n m) }
    {
        no_pdsch(self.prefix, self.special) && is_special_at(self.config, n, m)
    }
}
