// What is told of a handset: made, changed, fed, and why it is silent.
ghost use Rattle.std.specs.Prelude.{◌≡◌};
ghost use Rattle.frame.specs.Refusals.{refusal_in, numbered};
ghost use Rattle.handset.specs.Make.{made_as};
ghost use Rattle.numbers.specs.Answers.{made_answer, changed_answer, answer_numbers, cause_numbers};

use crate::kinds::{AnswerKind, CauseKind};
use frame::Refusal;
use handset::Handset;
use reply::Answer;
use resource::Resource;
use silence::{Cause, Explained};

// A handset that was made; beside a refusal one that every feed refuses.
#[repr(C)]
#[derive(Clone, Copy)]
pub struct MadeAnswer {
    pub refusal: u16,
    pub handset: Handset,
}

impl From<Result<Handset, Refusal>> for MadeAnswer {
    ghost from_gives = { λ x a. a ≡ made_answer (made_as x) };

    fn from(x: Result<Handset, Refusal>) -> MadeAnswer {
        match x {
            Ok(handset) => MadeAnswer {
                refusal: 0,
                handset,
            },
            Err(refusal) => MadeAnswer {
                refusal: refusal.into(),
                handset: Handset::refused(),
            },
        }
    }
}

// The handset after a change of mode; beside a refusal as it was. C has it and `MadeAnswer` under two names.
#[repr(C)]
#[derive(Clone, Copy)]
pub struct ChangedAnswer {
    pub refusal: u16,
    pub handset: Handset,
}

impl From<(Result<(), Refusal>, Handset)> for ChangedAnswer {
    ghost from_gives = { λ x a. a ≡ changed_answer (record { refusal = refusal_in x.0; handset = x.1 }) };

    fn from((changed, handset): (Result<(), Refusal>, Handset)) -> ChangedAnswer {
        ChangedAnswer {
            refusal: changed.map_or_else(u16::from, |()| 0),
            handset,
        }
    }
}

// Kind 1 is a bundled reply, 2 a multiplexed one, 3 silent, 4 taken, 5 no window; 0 where refused. `second` is the resource of a
// reply's second antenna port, 0 where there is one port. `handset` is the handset after the feed.
#[repr(C)]
#[derive(Clone, Copy)]
pub struct FedAnswer {
    pub refusal: u16,
    pub kind: u16,
    pub resource: u16,
    pub b0: u16,
    pub b1: u16,
    pub second: u16,
    pub handset: Handset,
}

// What a feed answers, and the handset after it.
impl From<(Result<Answer, Refusal>, Handset)> for FedAnswer {
    ghost from_gives = { λ x a. a ≡ answer_numbers (numbered x.0) x.1 };

    fn from((answer, handset): (Result<Answer, Refusal>, Handset)) -> FedAnswer {
        let (refusal, kind) = match answer {
            Ok(Answer::Sent(r)) => {
                return FedAnswer {
                    refusal: 0,
                    kind: r.kind as u16,
                    resource: r.resource.number(),
                    b0: r.b0,
                    b1: r.b1,
                    second: r.second.map_or(0, Resource::number),
                    handset,
                };
            }
            Ok(Answer::Taken) => (0, AnswerKind::Taken),
            Ok(Answer::NoWindow) => (0, AnswerKind::NoWindow),
            Ok(Answer::Silent) => (0, AnswerKind::Silent),
            Err(refusal) => (refusal.into(), AnswerKind::Refused),
        };
        // No `..FedAnswer::default()`: a handset has no default, since settings of zeros are refused.
        FedAnswer {
            refusal,
            kind: kind as u16,
            resource: 0,
            b0: 0,
            b1: 0,
            second: 0,
            handset,
        }
    }
}

// `fed` is what the feed answers. Cause 1 is that nothing was heard in the window, 2 that a miss is shown, with V and the value
// expected; 0 where the answer is not silent.
#[repr(C)]
#[derive(Clone, Copy)]
pub struct SilenceAnswer {
    pub fed: FedAnswer,
    pub cause: u16,
    pub v: u16,
    pub expected: u16,
}

// What a feed answers with the cause beside a silence, and the handset after it.
impl From<(Explained, Handset)> for SilenceAnswer {
    ghost from_gives = { λ x a. a ≡ cause_numbers x.0.cause (answer_numbers (numbered x.0.answer) x.1) };

    fn from((explained, handset): (Explained, Handset)) -> SilenceAnswer {
        let (cause, v, expected) = match explained.cause {
            None => (CauseKind::None, 0, 0),
            Some(Cause::NothingHeard) => (CauseKind::NothingHeard, 0, 0),
            Some(Cause::MissShown(v, expected)) => (CauseKind::MissShown, v, expected),
        };
        SilenceAnswer {
            fed: (explained.answer, handset).into(),
            cause: cause as u16,
            v,
            expected,
        }
    }
}
