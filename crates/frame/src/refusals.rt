// Settings and their refusals (document 01, "Settings"; refusals 1 to 6; document 02, U1, 17, U2, 19, U9, 24), the settings in another
// mode (U8), and which reply a window takes.
ghost use Rattle.std.specs.Prelude.{◌≡◌};
ghost use Rattle.frame.specs.Refusals.{refusal_in};
ghost use Rattle.frame.specs.Settings.{cell_refusal, mode_refusal, blocks_refusal, has_scheduled, scheduled_refusal, has_second_port, ports_mode_refusal, ports_refusal, later_refusal, settings_refusal, new_mode_refusal, in_mode, bundles};

use crate::{Refusal, Settings};

impl Settings {
    // The cell: 1 to 3.
    #[tactic(auto, unfolding(crate::specs::Settings::cell_refusal))]
    fn check_cell(self) -> Result<(), Refusal>
        ensures { refusal_in result ≡ cell_refusal self }
    {
        if 6 < self.config {
            return Err(Refusal::Configuration);
        }
        if !(6..=110).contains(&self.nrb) {
            return Err(Refusal::Bandwidth);
        }
        if 2047 < self.n1 {
            return Err(Refusal::N1);
        }
        Ok(())
    }

    // The mode: 4 and 5.
    #[tactic(auto, unfolding(crate::specs::Settings::mode_refusal))]
    fn check_mode(self) -> Result<(), Refusal>
        ensures { refusal_in result ≡ mode_refusal self }
    {
        if 1 < self.mode {
            return Err(Refusal::Mode);
        }
        if self.mode == 1 && self.config == 5 {
            return Err(Refusal::Multiplexing);
        }
        Ok(())
    }

    // The blocks: 6.
    #[tactic(auto, unfolding(crate::specs::Settings::blocks_refusal))]
    fn check_blocks(self) -> Result<(), Refusal>
        ensures { refusal_in result ≡ blocks_refusal self }
    {
        if !(1..=2).contains(&self.blocks) {
            return Err(Refusal::Blocks);
        }
        Ok(())
    }

    // A scheduled resource is set.
    #[tactic(auto, unfolding(crate::specs::Settings::has_scheduled))]
    pub fn has_scheduled(self) -> bool
        ensures { result ≡ has_scheduled self }
    {
        self.scheduled != 65535
    }

    // The scheduled resource: 17.
    #[tactic(auto, unfolding(crate::specs::Settings::scheduled_refusal))]
    fn check_scheduled(self) -> Result<(), Refusal>
        ensures { refusal_in result ≡ scheduled_refusal self }
    {
        if self.has_scheduled() && self.n1 <= self.scheduled {
            return Err(Refusal::ScheduledResource);
        }
        Ok(())
    }

    // There are two antenna ports.
    #[tactic(auto, unfolding(crate::specs::Settings::has_second_port))]
    pub fn has_second_port(self) -> bool
        ensures { result ≡ has_second_port self }
    {
        self.ports == 2
    }

    // Two ports with mode 1: 24.
    #[tactic(auto, unfolding(crate::specs::Settings::ports_mode_refusal))]
    fn check_ports_mode(self) -> Result<(), Refusal>
        ensures { refusal_in result ≡ ports_mode_refusal self }
    {
        if self.mode == 1 && self.has_second_port() {
            return Err(Refusal::Ports);
        }
        Ok(())
    }

    // The ports: 24, also where there are two of them with mode 1 or with a scheduled resource. One port is refused by nothing and tested
    // first, since most cells have one.
    #[tactic(auto, unfolding(crate::specs::Settings::ports_refusal, crate::specs::Settings::ports_mode_refusal, crate::specs::Settings::has_second_port))]
    fn check_ports(self) -> Result<(), Refusal>
        ensures { refusal_in result ≡ ports_refusal self }
    {
        if self.ports == 1 {
            return Ok(());
        }
        if !self.has_second_port() || self.has_scheduled() {
            return Err(Refusal::Ports);
        }
        self.check_ports_mode()
    }

    // What later papers add to the settings: 17, then 19, then 24.
    #[tactic(auto, using(crate::proofs::Refused::first_refused, crate::proofs::Refused::first_accepted), unfolding(crate::specs::Settings::later_refusal))]
    fn check_later(self) -> Result<(), Refusal>
        ensures { refusal_in result ≡ later_refusal self }
    {
        self.check_scheduled()?;
        self.check_special()?;
        self.check_ports()
    }

    // The first refusal that the settings meet, 1 to 6 and then those of later papers.
    #[tactic(auto, using(crate::proofs::Refused::first_refused, crate::proofs::Refused::first_accepted), unfolding(crate::specs::Settings::settings_refusal))]
    pub fn check(self) -> Result<(), Refusal>
        ensures { refusal_in result ≡ settings_refusal self }
    {
        self.check_cell()?;
        self.check_mode()?;
        self.check_blocks()?;
        self.check_later()
    }

    // What a change to the settings' mode is refused for: 4 and 5, then 24 where there are two ports.
    #[tactic(auto, using(crate::proofs::Refused::first_refused, crate::proofs::Refused::first_accepted), unfolding(crate::specs::Settings::new_mode_refusal))]
    pub fn check_new_mode(self) -> Result<(), Refusal>
        ensures { refusal_in result ≡ new_mode_refusal self }
    {
        self.check_mode()?;
        self.check_ports_mode()
    }

    // The same settings in another mode.
    pub fn in_mode(self, mode: u16) -> Settings
        ensures { result ≡ in_mode self mode }
    {
        Settings { mode, ..self }
    }

    // True if a window of `size` positions is answered by the bundled reply; else the reply is multiplexed.
    #[tactic(auto, unfolding(crate::specs::Settings::bundles))]
    pub fn is_bundled(self, size: u16) -> bool
        ensures { result ≡ bundles self size }
    {
        self.mode == 0 || size == 1
    }
}
