// What a reply is read as.
ghost use Rattle.std.specs.Prelude.{◌≡◌};
ghost use Rattle.frame.specs.Refusals.{numbered};
ghost use Rattle.reply.specs.Kinds.{kind_number};
ghost use Rattle.numbers.specs.Answers.{told_position, place_answer, reading_answer};

use crate::kinds::AnswerKind;
use frame::Refusal;
use reply::ReplyKind;
use station::{Place, Reading};

// Kind 1 is a bundled reading with the ACK bits, 2 a multiplexed one with the delivered positions, bit p for position p; 0 where
// refused. `scheduled` is 1 where the reply is read as the scheduled block, which has no CCE.
#[repr(C)]
#[derive(Clone, Copy, Default)]
pub struct ReadingAnswer {
    pub refusal: u16,
    pub kind: u16,
    pub position: u16,
    pub cce: u16,
    pub b0: u16,
    pub b1: u16,
    pub delivered: u16,
    pub scheduled: u16,
}

// The position that a C caller tells, 65535 for none.
pub fn told_position(position: u16) -> Option<u16>
    ensures { result ≡ told_position position }
{
    if position == 65535 {
        return None;
    }
    Some(position)
}

// A reading of this kind, so far without what it says.
fn read_at(place: Place, kind: ReplyKind) -> ReadingAnswer
    ensures { result ≡ place_answer place (kind_number kind) 0 0 0 }
{
    let (cce, scheduled) = match place {
        Place::Pdcch(_, cce) => (cce.number(), 0),
        Place::Block(_) => (0, 1),
    };
    ReadingAnswer {
        refusal: 0,
        kind: kind as u16,
        position: place.position(),
        cce,
        scheduled,
        ..ReadingAnswer::default()
    }
}

impl From<Result<Reading, Refusal>> for ReadingAnswer {
    ghost from_gives = { λ x a. a ≡ reading_answer (numbered x) };

    fn from(x: Result<Reading, Refusal>) -> ReadingAnswer {
        match x {
            Ok(Reading::Bundled(place, b0, b1)) => ReadingAnswer {
                b0,
                b1,
                ..read_at(place, ReplyKind::Bundled)
            },
            Ok(Reading::Multiplexed(place, positions)) => ReadingAnswer {
                delivered: positions,
                ..read_at(place, ReplyKind::Multiplexed)
            },
            Err(refusal) => ReadingAnswer {
                refusal: refusal.into(),
                kind: AnswerKind::Refused as u16,
                ..ReadingAnswer::default()
            },
        }
    }
}
