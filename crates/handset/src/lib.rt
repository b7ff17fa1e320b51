// The running handset (document 01, "The running handset"): made from settings, then fed subframe after subframe,
// with changes of mode in between (document 02, U8).
#![tactic(auto)]

mod changing;
mod feeding;
mod making;
mod modes;
mod running;
mod state;

ghost use Rattle.std.specs.Prelude.{◌≡◌};

use frame::Settings;
use heard::{Memory, Slot};
pub use running::Running;

// The handset's state, 74 bytes: its settings, the subframe it expects, and for the last 13 subframes, newest first, the mode that
// stood when each was fed, a bit each from the lowest on, and what it heard. A C caller lends it, and may have written any numbers.
#[repr(C)]
#[derive(Clone, Copy)]
pub struct Handset {
    pub settings: Settings,
    pub next: u16,
    pub modes: u16,
    pub past: [Slot; 13],
}

impl Handset {
    // What it remembers before the subframe that it expects.
    pub fn memory(&self) -> Memory<'_>
        ensures settings { result.settings.now ≡ self.now.settings }
        ensures n { result.n ≡ self.now.next }
        ensures past { result.past.now ≡ self.now.past }
    {
        Memory {
            settings: &self.settings,
            n: self.next,
            past: &self.past,
        }
    }
}
