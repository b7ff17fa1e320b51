// The reply of a window (document 01, "The bundled reply" and "The multiplexed reply"; document 02, U1 and U9).
#![tactic(auto)]

mod answers;

pub use answers::answer_in;
use resource::Resource;

// The kind of a reply, and its number.
#[derive(Clone, Copy, Debug, PartialEq, Eq)]
pub enum ReplyKind {
    Bundled = 1,
    Multiplexed = 2,
}

// A reply: its kind, its PUCCH resource, that of the first antenna port, its two bits, the second 0 in a one-bit reply, and the second
// port's resource, where the handset has two.
#[derive(Clone, Copy, Debug, PartialEq, Eq)]
pub struct Reply {
    pub kind: ReplyKind,
    pub resource: Resource,
    pub b0: u16,
    pub b1: u16,
    pub second: Option<Resource>,
}

// What a feed is answered (document 01, "The running handset").
#[derive(Clone, Copy, Debug, PartialEq, Eq)]
pub enum Answer {
    Taken,
    NoWindow,
    Silent,
    Sent(Reply),
}
