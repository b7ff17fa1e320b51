// The bytes of the one spelling, header, settings, records; and the call that writes them.
ghost use Rattle.std.specs.Prelude.{◌≤◌, ◌≡◌, length, IfOk};
ghost use Rattle.frame.specs.Settings.{settings_refusal};
ghost use Rattle.replaying.specs.Replay.{written};
ghost use Rattle.replaying.specs.Written.{put_at};
ghost use Rattle.spelling.specs.Spelling.{spelled_size, header_bytes, settings_bytes, slot_bytes, records_bytes, spelling_of};
ghost use Rattle.spelling.specs.Writable.{Writable};
ghost use Rattle.spelling.specs.Writing.{write_of, written_by, spelled_into};

use crate::stops::accepted;
use frame::{Refusal, Settings};
use heard::Slot;
use reader::Trace;
use replaying::Stop;
use trace::{HEADER, RECORD, SETTINGS};

// Where the records begin, behind the header and the settings.
const RECORDS_AT: usize = HEADER + SETTINGS;

// The header: the settings come behind it, then the records.
#[tactic(auto, unfolding(crate::specs::Spelling::header_bytes))]
fn header_bytes(records: u16) -> [u8; HEADER]
    requires { spelled_size records ≤ 65535 }
    ensures { result ≡ header_bytes records }
{
    let [records_low, records_high] = records.to_le_bytes();
    let [first_low, first_high] = (RECORDS_AT as u16).to_le_bytes();
    let [settings_low, settings_high] = (HEADER as u16).to_le_bytes();
    let [size_low, size_high] = (RECORDS_AT as u16 + RECORD as u16 * records).to_le_bytes();
    [
        records_low,
        records_high,
        first_low,
        first_high,
        settings_low,
        settings_high,
        size_low,
        size_high,
    ]
}

// The settings. Accepted settings fit their bytes.
#[tactic(auto, using(crate::proofs::Putting::settings_small), unfolding(crate::specs::Spelling::settings_bytes))]
fn settings_bytes(s: Settings) -> [u8; SETTINGS]
    requires { settings_refusal s ≡ 0 }
    ensures { result ≡ settings_bytes s }
{
    let [n1_low, n1_high] = s.n1.to_le_bytes();
    let [scheduled_low, scheduled_high] = s.scheduled.to_le_bytes();
    [
        s.config as u8,
        s.nrb as u8,
        s.mode as u8,
        s.blocks as u8,
        s.special as u8,
        s.prefix as u8,
        n1_low,
        n1_high,
        scheduled_low,
        scheduled_high,
    ]
}

// A record.
fn slot_bytes(t: Slot) -> [u8; RECORD]
    ensures { result ≡ slot_bytes t }
{
    [t.kind, t.cce, t.dai, t.results]
}

// Writes the records as a reader gives them. Should a C caller's output overlap the trace, nothing is written outside: no more records
// are written than were counted, and a record's place is made of its number alone. `chunks_exact_mut` is no substitute for that place:
// when it is done, a proof knows the output's length and not its bytes.
fn put_records(trace: Trace, out: &mut [u8])
    requires { Writable trace out.old }
    ensures { out.new ≡ put_at 18 (records_bytes trace.entry.bytes.now 0 trace.entry.records) out.old }
{
    for (number, record) in trace.masked() {
        let at = RECORDS_AT + RECORD * number as usize;
        out[at..at + RECORD].copy_from_slice(&slot_bytes(record));
    }
}

// Writes a trace.
#[tactic(auto, using(crate::proofs::Putting::trace_put))]
fn put_trace(trace: Trace, out: &mut [u8])
    requires { Writable trace out.old }
    ensures { out.new ≡ written (spelling_of trace.entry.bytes.now) out.old }
{
    let settings = trace.settings();
    out[..HEADER].copy_from_slice(&header_bytes(trace.records));
    out[HEADER..RECORDS_AT].copy_from_slice(&settings_bytes(settings));
    put_records(trace, out);
}

// Writes any bytes that are an accepted trace into any output with room for it, and says how many; else refuses, and leaves the output
// as it was. The third promise follows from the other two; with it a caller may lend the bytes that were written.
pub fn write(trace: &[u8], out: &mut [u8]) -> Result<u16, Stop>
    ensures value { written_by result ≡ write_of trace.now (length out.old) }
    ensures out_after { out.new ≡ spelled_into trace.now out.old }
    ensures size_in_bounds { IfOk result (λ size. size ≤ length out.new) }
{
    let trace = accepted(trace)?;
    let size = RECORDS_AT + RECORD * trace.records as usize;
    if out.len() < size {
        return Err(Stop::Refused(Refusal::Output));
    }
    put_trace(trace, out);
    Ok(size as u16)
}
