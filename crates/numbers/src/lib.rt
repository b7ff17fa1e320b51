// The engine's answers as numbers, as a C caller gets them: the refusal, 0 for none, and the values, which are 0 where they say
// nothing. The C interface needs numbers here, and no Result, Option or enum. Each struct has its fields in the order of
// include/feedback.h. The calls themselves are in `feedback`.
#![tactic(auto)]

mod accounts;
mod claimed;
mod commands;
mod drives;
mod feeds;
mod frames;
mod games;
mod kinds;
mod readings;
mod resources;

pub use accounts::{ConfirmedAnswer, CreditAnswer, OpenedAnswer};
pub use claimed::ClaimsAnswer;
pub use commands::CommandAnswer;
pub use drives::{RecordAnswer, ReplayAnswer, ReplaySizeAnswer, WriteAnswer};
pub use feeds::{ChangedAnswer, FedAnswer, MadeAnswer, SilenceAnswer};
pub use frames::{AnsweredAnswer, WindowAnswer};
pub use games::GameAnswer;
pub use readings::{ReadingAnswer, told_position};
pub use resources::{InverseAnswer, ResourceAnswer};
