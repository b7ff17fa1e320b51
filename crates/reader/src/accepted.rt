// A trace that is accepted, and its records with their numbers.
ghost use Rattle.std.specs.Prelude.{◌-◌, ◌≤◌, ◌<◌, ◌≡◌, Ok, Some, IfOk};
ghost use Rattle.frame.specs.Refusals.{refusal_in};
ghost use Rattle.reader.specs.Record.{record_slot, used_in, record_of};
ghost use Rattle.trace.specs.Trace.{header_of, settings_of, trace_refusal};

use crate::Reader;
use crate::records::{masked, slot_at, used_in};
use frame::{Refusal, Settings};
use heard::Slot;
use trace::RECORD;

// A lent trace that can be read from end to end, how many records it has, and where the first one begins. They are counted once: should
// a C caller's output overlap the trace, no more are read than were counted before anything was written, and none elsewhere.
#[derive(Clone, Copy)]
pub struct Trace<'a> {
    pub bytes: &'a [u8],
    pub records: u16,
    pub first: u16,
    pub ghost accepted: { trace_refusal bytes.now ≡ 0 },
    pub ghost counted: { records ≡ (header_of bytes.now).records },
    pub ghost placed: { first ≡ (header_of bytes.now).first },
}

impl<'a> Trace<'a> {
    // 21, then 22 for the parts and for a kind over 3 in any record.
    #[tactic(auto, using(frame::proofs::Refused::first_refused, frame::proofs::Refused::first_accepted))]
    pub fn new(bytes: &'a [u8]) -> Result<Trace<'a>, Refusal>
        ensures refusal { refusal_in result ≡ trace_refusal bytes.now }
        ensures lent { IfOk result (λ trace. trace.bytes ≡ bytes.entry) }
    {
        trace::check_trace(bytes)?;
        let header = trace::header_of(bytes);
        Ok(Trace {
            bytes,
            records: header.records,
            first: header.first,
        })
    }

    pub fn settings(self) -> Settings
        ensures { result ≡ settings_of self.entry.bytes.now }
    {
        trace::settings_of(self.bytes)
    }

    // The record of this number as it stands, for any number: past the records what stands there, and past the end zeros.
    #[tactic(auto, unfolding(crate::specs::Record::record_slot))]
    fn slot(self, number: u16) -> Slot
        ensures { result ≡ record_slot self.entry.bytes.now number }
    {
        slot_at(self.bytes, self.first as usize + RECORD * number as usize)
    }

    // What is used of the record of this number, as a reader gives it; the header and the parts, which are accepted, are not tested again.
    #[tactic(auto, using(crate::proofs::Given::record_read_holds))]
    pub fn record(self, number: u16) -> Slot
        ensures value { result ≡ used_in (record_slot self.entry.bytes.now number) }
        ensures read { number < self.entry.records → record_of self.entry.bytes.now number ≡ Ok (Some result) }
    {
        used_in(self.slot(number))
    }

    // The same with no branch on the record's kind: faster where, as in writing, no other branch is taken by it.
    #[tactic(auto, using(crate::proofs::Given::record_read_holds))]
    pub fn masked_record(self, number: u16) -> Slot
        ensures value { result ≡ used_in (record_slot self.entry.bytes.now number) }
        ensures read { number < self.entry.records → record_of self.entry.bytes.now number ≡ Ok (Some result) }
    {
        masked(self.slot(number))
    }

    // The records as a reader gives them, each with its number.
    pub fn numbered(self) -> Records<'a>
        ensures trace { result.trace ≡ self.entry }
        ensures first { result.reader.next ≡ 0 }
    {
        Records {
            trace: self,
            reader: Reader::new(self.bytes),
            masked: false,
        }
    }

    // The same by `masked_record`, for a loop that takes no other branch on a record.
    pub fn masked(self) -> Records<'a>
        ensures trace { result.trace ≡ self.entry }
        ensures first { result.reader.next ≡ 0 }
    {
        let mut records = self.numbered();
        records.masked = true;
        records
    }
}

// The records of an accepted trace, each with its number: the reader counts, and what it would give is taken from the trace, whose header
// and parts are not tested again. What follows is part of each loop over them, for speed: so `masked` is known there.
#[derive(Clone, Copy)]
pub struct Records<'a> {
    pub trace: Trace<'a>,
    pub reader: Reader<'a>,
    pub masked: bool,
    pub ghost lent: { reader.trace ≡ trace.bytes },
    pub ghost counted: { reader.next ≤ trace.records },
}

impl Records<'_> {
    // The record of this number.
    #[inline(always)]
    fn record(&self, number: u16) -> Slot
        ensures value { result ≡ used_in (record_slot self.now.trace.bytes.now number) }
        ensures read { number < self.now.trace.records → record_of self.now.trace.bytes.now number ≡ Ok (Some result) }
    {
        if self.masked {
            self.trace.masked_record(number)
        } else {
            self.trace.record(number)
        }
    }
}

impl Iterator for Records<'_> {
    ghost use Rattle.std.specs.Iterator.{at_most};
    ghost use Rattle.reader.specs.Numbered.{GivesNumbered};

    type Item = (u16, Slot);

    ghost next_gives = { GivesNumbered };

    ghost remaining = { λ r. at_most (r.trace.records - r.reader.next) };

    #[inline(always)]
    fn next(&mut self) -> Option<(u16, Slot)> {
        if self.reader.next >= self.trace.records as usize {
            return None;
        }
        let number = self.reader.next as u16;
        let record = self.record(number);
        self.reader.advance();
        Some((number, record))
    }
}
