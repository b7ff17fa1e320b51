// The kinds of an answer, with their numbers (specs/Kinds.antt).

// What a reading and a feed tell, beside the kinds of a reply, which have the numbers of `ReplyKind`.
#[derive(Clone, Copy, Debug, PartialEq, Eq)]
pub enum AnswerKind {
    Refused = 0,
    Silent = 3,
    Taken = 4,
    NoWindow = 5,
}

// The cause of a silence; none beside any other answer.
#[derive(Clone, Copy, Debug, PartialEq, Eq)]
pub enum CauseKind {
    None = 0,
    NothingHeard = 1,
    MissShown = 2,
}

// What claims are.
#[derive(Clone, Copy, Debug, PartialEq, Eq)]
pub enum ClaimsKind {
    Refused = 0,
    Clean = 1,
    Clash = 2,
}

// What a reader of a trace gives.
#[derive(Clone, Copy, Debug, PartialEq, Eq)]
pub enum RecordKind {
    Refused = 0,
    Read = 1,
    End = 2,
}

// How a replay, or the writing of a trace, ended: refused, and by no record; done; a record was refused.
#[derive(Clone, Copy, Debug, PartialEq, Eq)]
pub enum EndKind {
    Refused = 0,
    Done = 1,
    Stopped = 2,
}
