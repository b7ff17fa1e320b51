// A recorded drive as a file (document 02, U3): the parts of a trace, and its refusals 21 and 22.
#![tactic(auto)]

mod bytes;

ghost use Rattle.std.specs.Prelude.{◌≡◌, leb};
ghost use Rattle.frame.specs.Refusals.{refusal_in};
ghost use Rattle.trace.specs.Trace.{header_of, settings_of, settings_part, records_part, apart, settings_fit, records_fit, length_refusal, parts_refusal, byte_at, place_of, kinds_known, trace_refusal};

pub use bytes::byte_at;
use bytes::{number_at, settings_at};
use frame::{Refusal, Settings};
use heard::SlotKind;
use std::ops::Range;

// The bytes of the header, of the settings and of a record.
pub const HEADER: usize = 8;

pub const SETTINGS: usize = 10;

pub const RECORD: usize = 4;

// The header: how many records, the offset of the first, the offset of the settings, and the whole length, in bytes.
#[derive(Clone, Copy, Debug, PartialEq, Eq)]
pub struct Header {
    pub records: u16,
    pub first: u16,
    pub settings: u16,
    pub size: u16,
}

#[tactic(auto, unfolding(crate::specs::Trace::header_of))]
pub fn header_of(trace: &[u8]) -> Header
    ensures { result ≡ header_of trace.now }
{
    Header {
        records: number_at(trace, 0),
        first: number_at(trace, 2),
        settings: number_at(trace, 4),
        size: number_at(trace, 6),
    }
}

impl Header {
    // The bytes of the settings.
    fn settings_part(self) -> Range<usize>
        ensures { result ≡ settings_part self }
    {
        let from = self.settings as usize;
        from..from + SETTINGS
    }

    // The bytes of the records.
    fn records_part(self) -> Range<usize>
        ensures { result ≡ records_part self }
    {
        let from = self.first as usize;
        from..from + RECORD * self.records as usize
    }

    // The settings are inside the file, and share no byte with the header.
    #[tactic(auto, unfolding(crate::specs::Trace::settings_fit))]
    fn settings_fit(self) -> bool
        ensures { result ≡ settings_fit self }
    {
        let settings = self.settings_part();
        settings.end <= self.size as usize && apart(&(0..HEADER), &settings)
    }

    // There are no records, or they are inside the file and share no byte with the header or the settings.
    #[tactic(auto, unfolding(crate::specs::Trace::records_fit))]
    fn records_fit(self) -> bool
        ensures { result ≡ records_fit self }
    {
        let settings = self.settings_part();
        let records = self.records_part();
        self.records == 0
            || records.end <= self.size as usize
                && apart(&(0..HEADER), &records)
                && apart(&settings, &records)
    }
}

// Of two parts, neither of them empty, no byte is in both.
fn apart(p: &Range<usize>, q: &Range<usize>) -> bool
    ensures { result ≡ apart p.now q.now }
{
    p.end <= q.start || q.end <= p.start
}

// The settings of a trace.
#[tactic(auto, unfolding(crate::specs::Trace::settings_of))]
pub fn settings_of(trace: &[u8]) -> Settings
    ensures { result ≡ settings_of trace.now }
{
    settings_at(trace, header_of(trace).settings)
}

// 21: a file below eight bytes or not of the header's length.
#[tactic(auto, unfolding(crate::specs::Trace::length_refusal))]
fn check_length(trace: &[u8]) -> Result<(), Refusal>
    ensures { refusal_in result ≡ length_refusal trace.now }
{
    if trace.len() < HEADER || trace.len() != header_of(trace).size as usize {
        return Err(Refusal::TraceLength);
    }
    Ok(())
}

// 21, then 22 for parts that share a byte or leave the file.
#[tactic(auto, using(frame::proofs::Refused::first_refused, frame::proofs::Refused::first_accepted), unfolding(crate::specs::Trace::parts_refusal))]
pub fn check_parts(trace: &[u8]) -> Result<(), Refusal>
    ensures { refusal_in result ≡ parts_refusal trace.now }
{
    check_length(trace)?;
    let header = header_of(trace);
    if !(header.settings_fit() && header.records_fit()) {
        return Err(Refusal::TraceParts);
    }
    Ok(())
}

// The kind of record i is one that there is, 0 to 3.
fn kind_known(trace: &[u8], header: Header, i: u16) -> bool
    ensures { result ≡ leb (byte_at trace.now (place_of header.first i)) 3 }
{
    SlotKind::try_from(byte_at(trace, header.first as usize + RECORD * i as usize)).is_ok()
}

// Every record's kind is known. The records are looked at from both ends, so that a kind over 3 is found as soon near the last as near
// the first.
fn kinds_known(trace: &[u8], header: Header) -> bool
    ensures { result ≡ kinds_known trace.now header.first header.records }
{
    (0..header.records.div_ceil(2)).all(|i| kind_known(trace, header, i)
        && kind_known(trace, header, header.records - 1 - i))
}

// 21, then 22 for the parts and for a kind over 3 in any record; none for a trace that can be read from end to end.
#[tactic(auto, using(frame::proofs::Refused::first_refused, frame::proofs::Refused::first_accepted), unfolding(crate::specs::Trace::trace_refusal))]
pub fn check_trace(trace: &[u8]) -> Result<(), Refusal>
    ensures { refusal_in result ≡ trace_refusal trace.now }
{
    check_parts(trace)?;
    if !kinds_known(trace, header_of(trace)) {
        return Err(Refusal::TraceParts);
    }
    Ok(())
}
