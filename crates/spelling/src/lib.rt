// One spelling of a trace (document 02, U4): any trace that a replay would run to its end, written with its settings at 8, its records
// at 18 and every unused field and bit 0, so that two traces are alike exactly if what is written of them is equal.
#![tactic(auto)]

mod bytes;
mod stops;

pub use bytes::write;
pub use stops::stop_of;
