// How much a replay writes, worked out beforehand (document 02, U14), so that its output can be lent: from the header and the settings
// of a trace alone.
#![tactic(auto)]

ghost use Rattle.std.specs.Prelude.{◌≡◌};
ghost use Rattle.frame.specs.Refusals.{numbered};
ghost use Rattle.sizing.specs.Size.{size_of};

use frame::Refusal;
use replaying::WINDOW;

// What the replay of a trace writes where it comes to the trace's end: how many windows, and how many bytes.
#[derive(Clone, Copy, Debug, PartialEq, Eq)]
pub struct ReplaySize {
    pub windows: u16,
    pub bytes: u32,
}

// 21, 22 for the parts of the trace, then the refusals of its settings. No record is looked at, not even its kind.
#[tactic(auto, using(frame::proofs::Refused::chain_refused, frame::proofs::Refused::first_accepted, frame::proofs::Refused::value_refused, frame::proofs::Refused::value_accepted), unfolding(crate::specs::Size::size_refusal, crate::specs::Size::figures_in, crate::specs::Size::size_of))]
pub fn replay_size(trace: &[u8]) -> Result<ReplaySize, Refusal>
    ensures { numbered result ≡ size_of trace.now }
{
    trace::check_parts(trace)?;
    let settings = trace::settings_of(trace);
    settings.check()?;
    let windows = counting::windows_before(settings.config, trace::header_of(trace).records);
    Ok(ReplaySize {
        windows,
        bytes: WINDOW as u32 * u32::from(windows),
    })
}
