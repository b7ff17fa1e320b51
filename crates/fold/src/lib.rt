// What a bundled reply needs of a window, found subframe by subframe (document 01, "The bundled reply"; document 02, U1).
#![tactic(auto)]

mod window;

ghost use Rattle.std.specs.Prelude.{◌≡◌, ◌≤◌};
ghost use Rattle.fold.specs.Fold.{unseen, step_of, expected};
ghost use Rattle.heard.specs.Memory.{view_in};

use heard::Slot;
use resource::Cce;
pub use window::seen_in;

// What the fold over a window finds: U, V, the position and first CCE of the last heard PDCCH, each block's AND, and whether a
// scheduled block was heard. V, position and CCE are no Option of the last PDCCH, which would say again that U is not 0: 01 counts U and
// compares V, and so do the definitions.
#[derive(Clone, Copy, Debug, PartialEq, Eq)]
pub struct Seen {
    pub u: u16,
    pub v: u16,
    pub position: u16,
    pub cce: Cce,
    pub first: bool,
    pub second: bool,
    pub scheduled: bool,
}

impl Seen {
    // Before the first subframe of a window.
    fn unseen() -> Seen
        ensures { result ≡ unseen }
    {
        Seen {
            u: 0,
            v: 0,
            position: 0,
            cce: Cce::new(0),
            first: true,
            second: true,
            scheduled: false,
        }
    }

    // One subframe more, at position m. Each field is chosen by itself, with no branch on what was heard, for speed: what is chosen from is
    // made before, since a choice of which one side calls a function is compiled to a branch.
    fn step(self, m: u16, t: Slot) -> Seen
        requires { self.u ≤ 9 }
        ensures { result ≡ step_of self m (view_in t) }
    {
        let pdcch = t.heard_pdcch();
        let (dai, first_cce) = (t.dai.into(), Cce::new(t.cce.into()));
        let v = if pdcch { dai } else { self.v };
        let position = if pdcch { m } else { self.position };
        let cce = if pdcch { first_cce } else { self.cce };
        Seen {
            u: self.u + pdcch as u16,
            v,
            position,
            cce,
            first: self.first & !t.first_failed(),
            second: self.second & !t.second_failed(),
            scheduled: self.scheduled | t.heard_block(),
        }
    }

    // The DAI that the last of U PDCCHs has where none was missed.
    #[tactic(auto, unfolding(crate::specs::Fold::expected))]
    pub fn expected(self) -> u16
        ensures { result ≡ expected self.u }
    {
        self.u.saturating_sub(1) % 4 + 1
    }
}
