// Refusals 9 to 12, 18 and 20 of what a subframe brings (document 01, "Causes and their numbers"; document 02, U1 and U2).
ghost use Rattle.std.specs.Prelude.{◌≡◌};
ghost use Rattle.frame.specs.Refusals.{refusal_in};
ghost use Rattle.heard.specs.Heard.{uplink_refusal, data_refusal, carried_refusal, pdcch_refusal, unset_refusal, heard_refusal, block_before, cause_of};
ghost use Rattle.heard.specs.Memory.{block_ago};

use crate::{Heard, Memory, SlotKind};
use frame::{Refusal, Settings};
use resource::Cce;

// An uplink subframe: 9. Settings and subframe are two parameters in all that follows: a struct of them would be built for each call.
#[tactic(auto, unfolding(crate::specs::Heard::uplink_refusal))]
fn check_uplink(s: Settings, n: u16) -> Result<(), Refusal>
    ensures { refusal_in result ≡ uplink_refusal s n }
{
    if !frame::is_downlink(s.config, n) {
        return Err(Refusal::Uplink);
    }
    Ok(())
}

// Data, that is a grant or a scheduled block: 9, then 20.
#[tactic(auto, using(frame::proofs::Refused::first_refused, frame::proofs::Refused::first_accepted), unfolding(crate::specs::Heard::data_refusal, crate::specs::Heard::short_refusal))]
fn check_data(s: Settings, n: u16) -> Result<(), Refusal>
    ensures { refusal_in result ≡ data_refusal s n }
{
    check_uplink(s, n)?;
    if s.is_too_short(n) {
        return Err(Refusal::Short);
    }
    Ok(())
}

// The blocks carried: 10.
#[tactic(auto, unfolding(crate::specs::Heard::carried_refusal))]
fn check_carried(s: Settings, blocks: u16) -> Result<(), Refusal>
    ensures { refusal_in result ≡ carried_refusal s blocks }
{
    if !(1..=s.blocks).contains(&blocks) {
        return Err(Refusal::Carried);
    }
    Ok(())
}

// A PDCCH: 11 and 12.
#[tactic(auto, unfolding(crate::specs::Heard::pdcch_refusal))]
fn check_pdcch(s: Settings, cce: Cce, dai: u16) -> Result<(), Refusal>
    ensures { refusal_in result ≡ pdcch_refusal s cce.0 dai }
{
    if !resource::is_cce(s.nrb, cce) {
        return Err(Refusal::Cce);
    }
    if !(1..=4).contains(&dai) {
        return Err(Refusal::Dai);
    }
    Ok(())
}

// A scheduled block with no resource set: 18.
#[tactic(auto, unfolding(crate::specs::Heard::unset_refusal))]
fn check_resource_set(s: Settings) -> Result<(), Refusal>
    ensures { refusal_in result ≡ unset_refusal s }
{
    if !s.has_scheduled() {
        return Err(Refusal::Scheduled);
    }
    Ok(())
}

// The first of refusals 9, 20, 10 to 12, and 18 for a scheduled block with no resource set, that is met by what subframe n brings,
// judged by itself.
#[tactic(auto, using(frame::proofs::Refused::first_refused, frame::proofs::Refused::first_accepted), unfolding(crate::specs::Heard::heard_refusal))]
pub fn check_heard(s: Settings, n: u16, x: Heard) -> Result<(), Refusal>
    ensures { refusal_in result ≡ heard_refusal s n x }
{
    match x {
        Heard::Nothing => Ok(()),
        Heard::Granted(g) => {
            check_data(s, n)?;
            check_carried(s, g.blocks)?;
            check_pdcch(s, g.cce, g.dai)
        }
        Heard::Scheduled(b) => {
            check_data(s, n)?;
            check_carried(s, b.blocks)?;
            check_resource_set(s)
        }
        Heard::Released(p) => {
            check_uplink(s, n)?;
            check_pdcch(s, p.cce, p.dai)
        }
    }
}

impl Memory<'_> {
    // A scheduled block was heard before in the window of subframe n. No window reaches back more than 13 subframes.
    pub fn block_before(self) -> bool
        ensures { result ≡ block_before 13 self.entry.settings.now.config self.entry.n (block_ago self.entry.past.now) }
    {
        (1..14).zip(self.past).any(|(ago, t)| t.kind == SlotKind::Block as u8
            && frame::shares_window(self.settings.config, self.n, ago))
    }

    // The first of refusals 9, 20, 10 to 12 and 18 that is met by what subframe n brings after what is remembered. Only a scheduled
    // block looks back.
    #[tactic(auto, using(frame::proofs::Refused::first_refused, frame::proofs::Refused::first_accepted), unfolding(crate::specs::Heard::cause_of, crate::specs::Heard::second_refusal))]
    pub fn check_cause(self, x: Heard) -> Result<(), Refusal>
        ensures { refusal_in result ≡ cause_of self.entry.settings.now self.entry.n (block_ago self.entry.past.now) x }
    {
        check_heard(*self.settings, self.n, x)?;
        match x {
            Heard::Scheduled(_) if self.block_before() => Err(Refusal::Scheduled),
            _ => Ok(()),
        }
    }
}
