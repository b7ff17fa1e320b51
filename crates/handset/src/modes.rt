// The modes that a handset remembers, a bit for each of its 13 subframes (document 02, U8).
ghost use Rattle.std.specs.Prelude.{◌≡◌, ◌≤◌};
ghost use Rattle.handset.specs.Feed.{window_settings};
ghost use Rattle.handset.specs.Modes.{mode_ago, modes_before, modes_sound};

use crate::Handset;
use frame::Settings;

// Before the start: the mode that the handset is made with.
pub fn modes_before(mode: u16) -> u16
    ensures { result ≡ modes_before mode }
{
    if mode == 1 {
        return 8191;
    }
    0
}

impl Handset {
    // The mode that stood when the subframe k ago was fed; with k = 0, which no window has, that of the newest.
    #[tactic(auto, unfolding(crate::specs::Modes::mode_ago))]
    fn mode_ago(&self, k: u16) -> u16
        requires { k ≤ 13 }
        ensures { result ≡ mode_ago self.now.modes k }
    {
        (self.modes >> k.saturating_sub(1)) % 2
    }

    // None of the 13 remembered modes is 1, or the settings may have mode 1.
    #[tactic(auto, using(frame::proofs::Refused::accepted_test), unfolding(crate::specs::Modes::modes_sound))]
    pub(crate) fn modes_sound(&self) -> bool
        ensures { result ≡ modes_sound self.now.settings self.now.modes }
    {
        (self.modes % 8192 == 0) | self.settings.in_mode(1).check_new_mode().is_ok()
    }

    // The settings in which the window of the subframe that is expected is answered: in the mode of its earliest subframe.
    #[tactic(auto, using(frame::proofs::Earliest::earliest_most), unfolding(crate::specs::Feed::window_settings))]
    pub(crate) fn window_settings(&self) -> Settings
        ensures { result ≡ window_settings self.now }
    {
        let k = frame::earliest_k_of(self.settings.config, self.next);
        self.settings.in_mode(self.mode_ago(k))
    }
}
