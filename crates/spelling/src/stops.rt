// What a trace is refused for: 21, 22, its settings, then its records, fed one by one with no output.
ghost use Rattle.std.specs.Prelude.{◌≡◌, IfOk};
ghost use Rattle.replaying.specs.Replay.{brought_in, played, ended_as};
ghost use Rattle.spelling.specs.Writing.{stop_in, stop_of, stopped_by};

use handset::Running;
use reader::Trace;
use replaying::Stop;

// The first record that is refused where `running` is fed all of them in turn. A loop beside `replaying::play`, which writes windows and
// so asks for an output with room for them: here is none.
fn first_refused(trace: Trace, mut running: Running) -> Result<(), Stop>
    ensures { stopped_by result ≡ stop_in (ended_as (played running.handset 0 (brought_in trace.entry.bytes.now))) }
{
    for (number, record) in trace.numbered() {
        replaying::take_record(&mut running, number, record)?;
    }
    Ok(())
}

// A trace of which nothing is refused; else the first of the refusals of reading and replay but the output's.
#[tactic(auto, using(crate::proofs::Answers::refused_before, crate::proofs::Answers::none_before))]
pub(crate) fn accepted(trace: &[u8]) -> Result<Trace<'_>, Stop>
    ensures stop { stopped_by result ≡ stop_of trace.now }
    ensures lent { IfOk result (λ given. given.bytes ≡ trace.entry) }
{
    let (trace, running) = replaying::begin(trace)?;
    first_refused(trace, running)?;
    Ok(trace)
}

// All refusals of reading and replay but the output's.
pub fn stop_of(trace: &[u8]) -> Result<(), Stop>
    ensures { stopped_by result ≡ stop_of trace.now }
{
    accepted(trace)?;
    Ok(())
}
