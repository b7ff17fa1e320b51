// U and V of a window, found by a loop over its positions in time order (document 01, "The bundled reply"; document 02, U5, which asks
// for the loop).
ghost use Rattle.std.specs.Prelude.{◌≡◌};
ghost use Rattle.fold.specs.Fold.{seen_of};
ghost use Rattle.heard.specs.Memory.{ks_in, views_in};

use crate::Seen;
use heard::Memory;

// U, V and the rest for the window of the subframe that a memory stands before. The order lists places in K, so K is read by an index:
// there is no second list to go along with.
#[tactic(auto, using(frame::proofs::Times::order_below, frame::proofs::Times::order_size, frame::proofs::Windows::window_k, frame::proofs::Windows::window_size, crate::proofs::Folding::seen_more, crate::proofs::Folding::seen_all, crate::proofs::Folding::step_counts), unfolding(crate::specs::Fold::seen_of, heard::specs::Memory::view_ago))]
pub fn seen_in(memory: Memory) -> Seen
    ensures { result ≡ seen_of (views_in memory.entry) (ks_in memory.entry) }
{
    let ks = memory.ks();
    let mut seen = Seen::unseen();
    for &m in frame::order_of(memory.settings.config, memory.n) {
        let t = memory.slot_ago(ks[m as usize]);
        seen = seen.step(m, t);
    }
    seen
}
