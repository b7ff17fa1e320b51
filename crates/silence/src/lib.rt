// The cause of a silence, beside the feed (document 02, U11).
#![tactic(auto)]

ghost use Rattle.std.specs.Prelude.{◌≡◌};
ghost use Rattle.frame.specs.Refusals.{numbered};
ghost use Rattle.silence.specs.Cause.{silence_cause, explain_of};

use fold::Seen;
use frame::Refusal;
use handset::Handset;
use heard::Heard;
use reply::Answer;

// The cause of a silence: nothing was heard in the window, or a miss is shown, with V and the value expected.
#[derive(Clone, Copy, Debug, PartialEq, Eq)]
pub enum Cause {
    NothingHeard,
    MissShown(u16, u16),
}

// What the feed answers, and the cause beside a silent answer.
#[derive(Clone, Copy, Debug, PartialEq, Eq)]
pub struct Explained {
    pub answer: Result<Answer, Refusal>,
    pub cause: Option<Cause>,
}

// The cause of a silence, from what the handset saw in the window.
#[tactic(auto, unfolding(crate::specs::Cause::silence_cause))]
fn cause_of(seen: Seen) -> Cause
    ensures { result ≡ silence_cause seen }
{
    if seen.u == 0 {
        return Cause::NothingHeard;
    }
    Cause::MissShown(seen.v, seen.expected())
}

// The feed, with the cause beside a silent answer. Only a silence has the window looked at again.
#[tactic(auto, unfolding(crate::specs::Cause::explain_of, crate::specs::Cause::cause_beside))]
pub fn explain(h: &mut Handset, x: Heard) -> Explained
    ensures answer { numbered result.answer ≡ (explain_of h.old x).fed.answer }
    ensures cause { result.cause ≡ (explain_of h.old x).cause }
    ensures after { h.new ≡ (explain_of h.old x).fed.handset }
{
    let before = *h;
    let answer = h.feed(x);
    let cause = match answer {
        Ok(Answer::Silent) => Some(cause_of(fold::seen_in(before.memory()))),
        _ => None,
    };
    Explained { answer, cause }
}
