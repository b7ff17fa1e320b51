// One record fed to a handset, and what is written of the answer.
ghost use Rattle.std.specs.Prelude.{◌≡◌};
ghost use Rattle.frame.specs.Refusals.{number_in, numbered};
ghost use Rattle.heard.specs.Memory.{heard_in};
ghost use Rattle.handset.specs.Feed.{feed_of};
ghost use Rattle.replaying.specs.Ended.{FeedsRecord, TakesRecord};
ghost use Rattle.replaying.specs.Written.{window_fed};

use crate::windows::window_bytes;
use crate::{Stop, WINDOW};
use frame::Refusal;
use handset::{Handset, Running};
use heard::{Heard, Slot};
use reply::Answer;

// Feeds record `number`, of which `slot` is what a reader gives; a refusal stops there, and leaves the handset as it was.
pub fn feed_record(running: &mut Running, number: u16, slot: Slot) -> Result<Answer, Stop>
    ensures answer { FeedsRecord number result (feed_of running.old.handset (heard_in slot)).answer }
    ensures after { running.new.handset ≡ (feed_of running.old.handset (heard_in slot)).handset }
{
    running
        .feed(Heard::from(slot))
        .map_err(|refusal| Stop::AtRecord(refusal, number))
}

// The same where the answer is not asked for.
pub fn take_record(running: &mut Running, number: u16, slot: Slot) -> Result<(), Stop>
    ensures stop { TakesRecord number result (number_in (feed_of running.old.handset (heard_in slot)).answer) }
    ensures after { running.new.handset ≡ (feed_of running.old.handset (heard_in slot)).handset }
{
    running
        .take(Heard::from(slot))
        .map_err(|refusal| Stop::AtRecord(refusal, number))
}

// Feeds what a subframe brings, and gives the eight bytes of its window; none for "taken" and "no window".
pub fn feed_window(handset: &mut Handset, x: Heard) -> Result<Option<[u8; WINDOW]>, Refusal>
    ensures window { numbered result ≡ window_fed handset.old.next (feed_of handset.old x).answer }
    ensures after { handset.new ≡ (feed_of handset.old x).handset }
{
    let n = handset.next;
    let answer = handset.feed(x)?;
    Ok(window_bytes(n, answer))
}
