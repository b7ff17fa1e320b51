// Why a replay, or the writing of a trace, comes to no end.
ghost use Rattle.std.specs.Prelude.{◌≡◌};
ghost use Rattle.frame.specs.Refusals.{number_of};
ghost use Rattle.replaying.specs.Ended.{IsRefused, stop_refusal, stopped_at};

use frame::Refusal;

// Refused, and by no record, or at the record with this number, from 0.
#[derive(Clone, Copy, Debug, PartialEq, Eq)]
pub enum Stop {
    Refused(Refusal),
    AtRecord(Refusal, u16),
}

impl Stop {
    pub fn refusal(self) -> Refusal
        ensures { number_of result ≡ stop_refusal self }
    {
        match self {
            Stop::Refused(refusal) | Stop::AtRecord(refusal, _) => refusal,
        }
    }

    // The number of the record that was refused, from 0; none where none was.
    pub fn record(self) -> Option<u16>
        ensures { result ≡ stopped_at self }
    {
        match self {
            Stop::Refused(_) => None,
            Stop::AtRecord(_, number) => Some(number),
        }
    }
}

impl From<Refusal> for Stop {
    ghost from_gives = { IsRefused };

    fn from(refusal: Refusal) -> Stop {
        Stop::Refused(refusal)
    }
}
