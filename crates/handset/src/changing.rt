// Changing the mode of a handset between feeds (document 02, U8; refusals 4, 5 and 8; U9, 24).
ghost use Rattle.std.specs.Prelude.{◌≡◌};
ghost use Rattle.frame.specs.Refusals.{refusal_in};
ghost use Rattle.handset.specs.Change.{change_refusal, change_of};

use crate::Handset;
use frame::Refusal;

impl Handset {
    // 4, 5 and 24 for the new mode with the handset's other settings, then 8.
    #[tactic(auto, using(frame::proofs::Refused::first_refused, frame::proofs::Refused::first_accepted), unfolding(crate::specs::Change::change_refusal))]
    fn check_change(&self, mode: u16) -> Result<(), Refusal>
        ensures { refusal_in result ≡ change_refusal self.now mode }
    {
        self.settings.in_mode(mode).check_new_mode()?;
        self.check_state()
    }

    // The new mode stands from now on, with all that is remembered; a refusal leaves the handset as it was.
    #[tactic(auto, using(frame::proofs::Refused::from_one), unfolding(crate::specs::Change::change_of))]
    pub fn change_mode(&mut self, mode: u16) -> Result<(), Refusal>
        ensures refusal { refusal_in result ≡ (change_of self.old mode).refusal }
        ensures after { self.new ≡ (change_of self.old mode).handset }
    {
        self.check_change(mode)?;
        self.settings = self.settings.in_mode(mode);
        Ok(())
    }
}
