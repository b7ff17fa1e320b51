// The window that claims are for, and the two passes over them: the first bad claim, then marks up to the first clash.
ghost use Rattle.std.specs.Prelude.{◌≡◌, ◌+◌, ◌<◌, ◌≤◌, false, length, None, position};
ghost use Rattle.frame.specs.Settings.{has_second_port};
ghost use Rattle.claims.specs.Claims.{resources_of, room_of, is_bad, first_bad, first_clash, found, marked};
ghost use Rattle.claims.specs.Marking.{Has};

use crate::offsets::Offsets;
use crate::scratch::Form;
use frame::Window;
use resource::Map;

// How many claims are looked at together, in the search for a bad one.
const PIECE: usize = 64;

// The window that claims are for, with the offsets of its resources, whether there are two antenna ports, and the number of resources
// that a claim may have, a mark for each.
#[derive(Clone, Copy)]
pub(crate) struct ClaimedWindow {
    window: Window,
    offsets: Offsets,
    two: bool,
    pub(crate) marks: usize,
    ghost map: { (offsets.map.nrb ≡ window.settings.nrb) × (offsets.map.size ≡ window.size) },
    ghost ports: { two ≡ has_second_port window.settings },
    ghost resources: { marks ≡ room_of window.settings window.n },
}

impl ClaimedWindow {
    #[tactic(auto, using(crate::proofs::Counts::resources_most), unfolding(crate::specs::Claims::room_of, crate::specs::Claims::resources_of))]
    pub(crate) fn of(window: Window) -> ClaimedWindow
        ensures { result.window ≡ window }
    {
        let offsets = Offsets::of(Map::of(window));
        let two = window.settings.has_second_port();
        let marks = offsets.count() + usize::from(two);
        ClaimedWindow {
            window,
            offsets,
            two,
            marks,
        }
    }

    // 16: m not below M or CCE not below N_4.
    #[tactic(auto, unfolding(crate::specs::Claims::is_bad))]
    fn is_bad(&self, claim: u16) -> bool
        ensures { result ≡ is_bad self.now.window.settings self.now.window.n claim }
    {
        !self.offsets.has(claim / 256, claim % 256)
    }

    // The first bad claim. It is looked for piece by piece, the last piece a shorter one, so that nothing is read behind the piece that
    // has it.
    #[tactic(auto, using(crate::proofs::First::counted_from_zero, crate::proofs::First::counted_from, crate::proofs::First::counted_on))]
    pub(crate) fn first_bad(&self, claims: &[u16]) -> Option<usize>
        ensures { result ≡ position (is_bad self.now.window.settings self.now.window.n) claims.now }
    {
        let mut good = 0;
        for piece in claims.chunks_exact(PIECE) {
            if let Some(index) = self.first_bad_in(piece) {
                return Some(good + index);
            }
            good += piece.len();
        }
        let index = self.first_bad_in(&claims[good..])?;
        Some(good + index)
    }

    // The same of one piece. Most have no bad claim, and a pass that does not stop at one takes several claims at a time; so only a piece
    // that has one is searched for it.
    #[tactic(auto, using(crate::proofs::First::no_bad))]
    fn first_bad_in(&self, claims: &[u16]) -> Option<usize>
        ensures { result ≡ position (is_bad self.now.window.settings self.now.window.n) claims.now }
    {
        let mut bad = false;
        for &claim in claims {
            bad |= self.is_bad(claim);
        }
        if !bad {
            return None;
        }
        claims.iter().position(|&claim| self.is_bad(claim))
    }

    // The offset of a claim, its first resource less N1; 0 for a bad claim. It is below M × N_4 whatever the claim, so that the
    // offset of the second resource is inside the marks too.
    #[tactic(auto, using(crate::proofs::Offset::offset_below, crate::proofs::Offset::offset_resource))]
    fn offset_of(&self, claim: u16) -> usize
        ensures below { result < resources_of self.now.window.settings self.now.window.n }
        ensures resource { is_bad self.now.window.settings self.now.window.n claim ≡ false → Has self.now.window.settings self.now.window.n claim (result + self.now.window.settings.n1) }
    {
        self.offsets.offset_of(claim / 256, claim % 256)
    }

    // Clears the bytes of the marks, then marks the claims up to the first clash, whose index it answers. Each claim is read once:
    // whatever it is, its marks are inside these bytes. Both are looked at before either is set; with one port there is one.
    #[tactic(auto, using(crate::proofs::Counts::resources_most, frame::proofs::Bools::bit_small), unfolding(crate::specs::Claims::room_of))]
    pub(crate) fn mark_to_clash<F: Form>(&self, claims: &[u16], bytes: &mut [u8]) -> Option<usize>
        requires good { length claims.now ≤ first_bad self.now.window.settings self.now.window.n claims.now }
        requires whole { length bytes.old ≡ F.room self.now.marks }
        ensures value { result ≡ found (first_clash self.now.window.settings self.now.window.n claims.now) (length claims.now) }
        ensures laid { bytes.new ≡ F.laid (marked self.now.window.settings self.now.window.n claims.now (first_clash self.now.window.settings self.now.window.n claims.now)) self.now.marks }
    {
        bytes.fill(0);
        for (i, &claim) in claims.iter().enumerate() {
            let t = self.offset_of(claim);
            if F::is_marked(bytes, t) || (self.two && F::is_marked(bytes, t + 1)) {
                return Some(i);
            }
            F::mark(bytes, t);
            if self.two {
                F::mark(bytes, t + 1);
            }
        }
        None
    }
}
