// What is told of a recorded drive: a record, a replay and its size, and a trace that was written.
ghost use Rattle.std.specs.Prelude.{◌≡◌};
ghost use Rattle.frame.specs.Refusals.{numbered};
ghost use Rattle.replaying.specs.Ended.{end_refusal, end_kind, end_record, replayed_by};
ghost use Rattle.spelling.specs.Writing.{written_by};
ghost use Rattle.numbers.specs.Answers.{record_answer, replay_answer, replay_size_answer, write_answer};

use crate::kinds::{EndKind, RecordKind};
use frame::Refusal;
use heard::Slot;
use replaying::{Outcome, Stop};
use sizing::ReplaySize;

// Kind 1 is a record, with what its kind uses of it, 2 the end of the trace; 0 where refused.
#[repr(C)]
#[derive(Clone, Copy)]
pub struct RecordAnswer {
    pub refusal: u16,
    pub kind: u16,
    pub slot: Slot,
}

impl From<Result<Option<Slot>, Refusal>> for RecordAnswer {
    ghost from_gives = { λ x a. a ≡ record_answer (numbered x) };

    fn from(x: Result<Option<Slot>, Refusal>) -> RecordAnswer {
        let (refusal, kind, slot) = match x {
            Ok(Some(slot)) => (0, RecordKind::Read, slot),
            Ok(None) => (0, RecordKind::End, Slot::default()),
            Err(refusal) => (refusal.into(), RecordKind::Refused, Slot::default()),
        };
        RecordAnswer {
            refusal,
            kind: kind as u16,
            slot,
        }
    }
}

// The refusal that stopped a replay or the writing of a trace, 0 for none, the kind of its end, and the number of the record that was
// refused. A function and no `From`: three numbers are no type of this crate, and a struct for them would say each field a third time.
fn end_numbers<T: Copy>(end: Result<T, Stop>) -> (u16, u16, u16)
    ensures { result ≡ (end_refusal end, end_kind end, end_record end) }
{
    match end {
        Ok(_) => (0, EndKind::Done as u16, 0),
        Err(Stop::Refused(refusal)) => (refusal.into(), EndKind::Refused as u16, 0),
        Err(Stop::AtRecord(refusal, number)) => (refusal.into(), EndKind::Stopped as u16, number),
    }
}

// Kind 1 is done, 2 stopped at the record of this number, from 0; 0 refused before any record. `windows` is how many were written.
#[repr(C)]
#[derive(Clone, Copy)]
pub struct ReplayAnswer {
    pub refusal: u16,
    pub kind: u16,
    pub number: u16,
    pub windows: u16,
}

impl From<Outcome> for ReplayAnswer {
    ghost from_gives = { λ x a. a ≡ replay_answer (replayed_by x) };

    fn from(x: Outcome) -> ReplayAnswer {
        let (refusal, kind, number) = end_numbers(x.end);
        ReplayAnswer {
            refusal,
            kind,
            number,
            windows: x.windows,
        }
    }
}

// The windows and the bytes that a replay writes which comes to the trace's end; both 0 where refused.
#[repr(C)]
#[derive(Clone, Copy, Default)]
pub struct ReplaySizeAnswer {
    pub refusal: u16,
    pub windows: u16,
    pub bytes: u32,
}

impl From<Result<ReplaySize, Refusal>> for ReplaySizeAnswer {
    ghost from_gives = { λ x a. a ≡ replay_size_answer (numbered x) };

    fn from(x: Result<ReplaySize, Refusal>) -> ReplaySizeAnswer {
        match x {
            Ok(size) => ReplaySizeAnswer {
                refusal: 0,
                windows: size.windows,
                bytes: size.bytes,
            },
            Err(refusal) => ReplaySizeAnswer {
                refusal: refusal.into(),
                ..ReplaySizeAnswer::default()
            },
        }
    }
}

// Kind 1 is written, with how many bytes, 2 a record of this number, from 0, that is refused; 0 refused by no record.
#[repr(C)]
#[derive(Clone, Copy)]
pub struct WriteAnswer {
    pub refusal: u16,
    pub kind: u16,
    pub number: u16,
    pub size: u16,
}

impl From<Result<u16, Stop>> for WriteAnswer {
    ghost from_gives = { λ x a. a ≡ write_answer (written_by x) };

    fn from(x: Result<u16, Stop>) -> WriteAnswer {
        let (refusal, kind, number) = end_numbers(x);
        WriteAnswer {
            refusal,
            kind,
            number,
            size: x.unwrap_or(0),
        }
    }
}
