// Making a handset from settings (document 01, "The running handset"; refusals 1 to 6, 17, 19 and 24).
ghost use Rattle.std.specs.Prelude.{◌≡◌};
ghost use Rattle.handset.specs.Make.{no_settings, fresh, made_as, make_of};

use crate::Handset;
use crate::modes::modes_before;
use frame::{Refusal, Settings};
use heard::Slot;

// A handset that expects subframe 0 and remembers nothing heard, in the mode that it is made with.
#[tactic(auto, unfolding(crate::specs::Make::fresh))]
fn fresh(settings: Settings) -> Handset
    ensures { result ≡ fresh settings }
{
    Handset {
        settings,
        next: 0,
        modes: modes_before(settings.mode),
        past: [Slot::default(); 13],
    }
}

impl Handset {
    // A fresh handset, or the first of refusals 1 to 6, 17, 19 and 24 that the settings meet.
    #[tactic(auto, using(frame::proofs::Refused::from_one), unfolding(crate::specs::Make::make_of))]
    pub fn new(settings: Settings) -> Result<Handset, Refusal>
        ensures { made_as result ≡ make_of settings }
    {
        settings.check()?;
        Ok(fresh(settings))
    }

    // A handset that every feed refuses: its settings are zeros, which refusal 2 refuses. A C caller gets it beside a refusal.
    pub fn refused() -> Handset
        ensures { result ≡ fresh no_settings }
    {
        fresh(Settings::default())
    }
}
