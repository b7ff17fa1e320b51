// The window of an uplink subframe, tested (document 01, "Frame and windows"; refusals 1 to 7; document 02, 17, 19 and 24).
ghost use Rattle.std.specs.Prelude.{◌≡◌, length, IfOk};
ghost use Rattle.frame.specs.Order.{order_of};
ghost use Rattle.frame.specs.Refusals.{refusal_in};
ghost use Rattle.frame.specs.Settings.{window_refusal};
ghost use Rattle.frame.specs.Table.{window_of};

use crate::table::{order_of, size_of, window_of};
use crate::{Refusal, Settings};

// The window of uplink subframe n, which has one in settings that are accepted: the settings, n, and M.
#[derive(Clone, Copy)]
pub struct Window {
    pub settings: Settings,
    pub n: u16,
    pub size: u16,
    pub ghost accepted: { window_refusal settings n ≡ 0 },
    pub ghost positions: { size ≡ length (window_of settings.config n) },
}

impl Window {
    // The window, or the first of refusals 1 to 6, 17, 19, 24 and 7 that settings and uplink subframe n meet: 7 where n has no window.
    // It is part of each caller, as `resource::resource_of` is, so that the calls of a C caller keep to the stack that the header states.
    #[inline(always)]
    #[tactic(auto, using(crate::proofs::Refused::first_refused, crate::proofs::Refused::first_accepted), unfolding(crate::specs::Settings::window_refusal, crate::specs::Settings::no_window_refusal))]
    pub fn new(settings: Settings, n: u16) -> Result<Window, Refusal>
        ensures refused { refusal_in result ≡ window_refusal settings n }
        ensures window { IfOk result (λ w. (w.settings ≡ settings) × (w.n ≡ n)) }
    {
        settings.check()?;
        let size = size_of(settings.config, n);
        if size == 0 {
            return Err(Refusal::Subframe);
        }
        Ok(Window { settings, n, size })
    }

    // K of the window in the print's order. `heard::Memory` and `confirming::SentIn` have a `ks` too, one line each, of their own
    // settings and n: a trait for the three would be longer.
    pub fn ks(self) -> &'static [u16]
        ensures { result.now ≡ window_of self.settings.config self.n }
    {
        window_of(self.settings.config, self.n)
    }

    // The positions of the window in time order.
    pub fn order(self) -> &'static [u16]
        ensures { result.now ≡ order_of (window_of self.settings.config self.n) }
    {
        order_of(self.settings.config, self.n)
    }
}
