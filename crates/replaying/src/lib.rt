// The replay of a recorded drive (document 02, U3): a handset made from the trace's settings and fed its records one by one, and
// eight bytes for each window into a lent output.
#![tactic(auto)]

mod feeding;
mod stop;
mod windows;

ghost use Rattle.std.specs.Prelude.{◌*◌, ◌≤◌, ◌≡◌, length, IfOk};
ghost use Rattle.frame.specs.Refusals.{refusal_in};
ghost use Rattle.frame.specs.Settings.{or_else};
ghost use Rattle.handset.specs.Make.{make_of};
ghost use Rattle.trace.specs.Trace.{settings_of, trace_refusal};
ghost use Rattle.replaying.specs.Ended.{replayed_by};
ghost use Rattle.replaying.specs.Ready.{Ready};
ghost use Rattle.replaying.specs.Replay.{brought_in, played, start_refusal, ended_as, replay_of, written, output_of};

pub use feeding::{feed_record, feed_window, take_record};
use frame::Refusal;
use handset::Running;
use reader::Trace;
pub use stop::Stop;
pub use windows::WINDOW;
use windows::Windows;

// What a replay comes to: how many windows were written, and whether it ran to its end.
#[derive(Clone, Copy, Debug, PartialEq, Eq)]
pub struct Outcome {
    pub windows: u16,
    pub end: Result<(), Stop>,
}

// A trace that is accepted and the handset that its records are fed to; 21, 22, then the refusals of making one.
#[tactic(auto, using(frame::proofs::Refused::first_refused, frame::proofs::Refused::first_accepted))]
pub fn begin(trace: &[u8]) -> Result<(Trace<'_>, Running), Refusal>
    ensures refusal { refusal_in result ≡ or_else (trace_refusal trace.now) (make_of (settings_of trace.now)).refusal }
    ensures made { IfOk result (λ begun. (begun.0.bytes ≡ trace.entry) × (begun.1.handset ≡ (make_of (settings_of trace.now)).handset)) }
{
    let trace = Trace::new(trace)?;
    let running = Running::new(trace.settings())?;
    Ok((trace, running))
}

// The same before a replay: 23 then for an output of fewer bytes than the windows need that all records complete.
#[tactic(auto, using(frame::proofs::Refused::first_refused, frame::proofs::Refused::first_accepted, crate::proofs::Starts::start_as), unfolding(crate::specs::Replay::output_needed))]
fn start(trace: &[u8], room: usize) -> Result<(Trace<'_>, Running), Refusal>
    ensures refusal { refusal_in result ≡ start_refusal trace.now room }
    ensures made { IfOk result (λ begun. (begun.0.bytes ≡ trace.entry) × (begun.1.handset ≡ (make_of (settings_of trace.now)).handset)) }
{
    let (trace, running) = begin(trace)?;
    let windows = counting::windows_before(trace.settings().config, trace.records) as usize;
    if room < WINDOW * windows {
        return Err(Refusal::Output);
    }
    Ok((trace, running))
}

// Feeds the records one by one to a fresh handset, up to the first refusal. Whatever a record brings, and whatever the trace has
// become, a subframe writes eight bytes or none by the handset's settings and number alone, and no more records are fed than were
// counted, so nothing is written outside.
fn play(trace: Trace, mut running: Running, windows: &mut Windows) -> Result<(), Stop>
    requires { Ready trace running.handset windows.old }
    ensures same_reference { windows.new.out.ghost_name ≡ windows.old.out.ghost_name }
    ensures value { replayed_by (record { windows = windows.new.written; end = result }) ≡ ended_as (played running.handset 0 (brought_in trace.entry.bytes.now)) }
    ensures out_after { windows.new.out.now ≡ written (played running.handset 0 (brought_in trace.entry.bytes.now)).bytes windows.old.out.now }
{
    for (number, record) in trace.numbered() {
        let n = running.handset.next;
        let answer = feed_record(&mut running, number, record)?;
        windows.push(n, answer);
    }
    Ok(())
}

// The replay of any bytes into any output.
// The third promise follows from the other two; with it a caller may lend the windows that were written.
pub fn replay(trace: &[u8], out: &mut [u8]) -> Outcome
    ensures value { replayed_by result ≡ replay_of trace.now (length out.old) }
    ensures out_after { out.new ≡ output_of trace.now out.old }
    ensures windows_in_bounds { 8 * result.windows ≤ length out.new }
{
    match start(trace, out.len()) {
        Ok((trace, running)) => {
            let mut windows = Windows::new(out);
            let end = play(trace, running, &mut windows);
            Outcome {
                windows: windows.written,
                end,
            }
        }
        Err(refusal) => Outcome {
            windows: 0,
            end: Err(Stop::Refused(refusal)),
        },
    }
}
