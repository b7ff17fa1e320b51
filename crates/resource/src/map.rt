// The map from a PDCCH to its resource and back, in a window of M positions (document 01, "Resources").
ghost use Rattle.std.specs.Prelude.{◌≡◌, ◌≤◌, ltb, IfOk};
ghost use Rattle.frame.specs.Refusals.{refusal_in, numbered};
ghost use Rattle.resource.specs.Formula.{edge, edges_of};
ghost use Rattle.resource.specs.Calls.{cces_of, map_refusal, resource_in, inverse_in};
ghost use Rattle.resource.specs.Bounds.{Bounds};
ghost use Rattle.resource.specs.Search.{Searched};

use crate::{Cce, Resource};
use frame::{Refusal, Settings, Window};

// What the map of a window and its inverse go by: N_RB, N1 and M, in the ranges that accepted settings and a window give.
#[derive(Clone, Copy)]
pub struct Map {
    pub nrb: u16,
    pub n1: u16,
    pub size: u16,
    pub ghost bounds: { Bounds nrb n1 size },
}

// N_4, which a first CCE lies below; 0 where N_RB is refused.
#[tactic(auto, unfolding(crate::specs::Calls::cces_of))]
pub fn cces_of(nrb: u16) -> u16
    ensures { result ≡ cces_of nrb }
{
    if !(6..=110).contains(&nrb) {
        return 0;
    }
    edge_of(nrb, 4)
}

// True if c is below N_4; any N_RB is taken, in 32 bits, where `edge_of` asks for 110 at most.
#[tactic(auto, unfolding(crate::specs::Formula::edge))]
pub fn is_cce(nrb: u16, c: Cce) -> bool
    ensures { result ≡ ltb c.0 (edge nrb 4) }
{
    let number = c.0 as u32;
    let width = nrb as u32;
    number < width * 44 / 36
}

// N_p = max(0, floor(N_RB × (12 × p − 4) / 36)), p 0 to 4.
#[tactic(auto, unfolding(crate::specs::Formula::edge))]
fn edge_of(nrb: u16, p: u16) -> u16
    requires { (nrb ≤ 110) × (p ≤ 4) }
    ensures { result ≡ edge nrb p }
{
    nrb * (12 * p).saturating_sub(4) / 36
}

// A region of CCEs: its number p, which 01 asks the search for, and its edges, N_p and N_(p+1), which the formula takes.
#[derive(Clone, Copy)]
struct Region {
    number: u16,
    low: u16,
    high: u16,
}

// The region of t / size: the search ends with the first region whose upper edge lies above it, that is with t < size × N_(p+1), or
// with none where all four lie below. Before each turn `high` is N_p; N_0 is 0. Document 01 asks for this loop, which yields the region's
// number by `break`; so it is no `for`.
#[tactic(auto, using(crate::proofs::Edges::edge_none, crate::proofs::Search::product_most, crate::proofs::Search::found))]
fn region_of(nrb: u16, size: u16, t: u16) -> Option<Region>
    requires { (nrb ≤ 110) × (1 ≤ size) × (size ≤ 9) }
    ensures { Searched nrb size t result }
{
    let mut low = 0;
    let mut high = 0;
    let mut p = 0;
    let number = loop {
        if p == 4 {
            return None;
        }
        low = high;
        high = edge_of(nrb, p + 1);
        if t < size * high {
            break p;
        }
        p += 1;
    };
    Some(Region { number, low, high })
}

impl Map {
    // The map of a window of `size` positions, whether or not there is such a window; 7 where N_RB, N1 or M is over what settings and
    // windows allow, or M is 0.
    #[tactic(auto, unfolding(crate::specs::Calls::map_refusal))]
    pub fn new(s: Settings, size: u16) -> Result<Map, Refusal>
        ensures refused { refusal_in result ≡ map_refusal s size }
        ensures map { IfOk result (λ map. (map.nrb ≡ s.nrb) × (map.n1 ≡ s.n1) × (map.size ≡ size)) }
    {
        if 110 < s.nrb || 2047 < s.n1 || !(1..=9).contains(&size) {
            return Err(Refusal::Subframe);
        }
        Ok(Map {
            nrb: s.nrb,
            n1: s.n1,
            size,
        })
    }

    // The map of a window.
    #[tactic(auto, using(crate::proofs::Mapped::window_bounds))]
    pub fn of(window: Window) -> Map
        ensures { (result.nrb ≡ window.settings.nrb) × (result.n1 ≡ window.settings.n1) × (result.size ≡ window.size) }
    {
        let s = window.settings;
        Map {
            nrb: s.nrb,
            n1: s.n1,
            size: window.size,
        }
    }

    // N_0 to N_4. They are the same for every CCE, so a caller with many makes them once.
    #[tactic(auto, using(crate::proofs::Edges::edge_none))]
    pub fn edges(self) -> [u16; 5]
        ensures { result ≡ edges_of self.nrb }
    {
        [
            0,
            edge_of(self.nrb, 1),
            edge_of(self.nrb, 2),
            edge_of(self.nrb, 3),
            edge_of(self.nrb, 4),
        ]
    }

    // The formula, with M = size: resource = (M − m − 1) × N_p + m × N_(p+1) + c + N1. 11 where position or CCE is none of the window's.
    #[tactic(auto, using(crate::proofs::Refused::position_refused))]
    pub fn resource(self, m: u16, cce: Cce) -> Result<Resource, Refusal>
        ensures { numbered result ≡ resource_in self.nrb self.n1 self.size m cce.0 }
    {
        if self.size <= m {
            return Err(Refusal::Cce);
        }
        let c = cce.0;
        let Some(region) = region_of(self.nrb, 1, c) else {
            return Err(Refusal::Cce);
        };
        Ok(Resource((self.size - m - 1) * region.low + m * region.high + c + self.n1))
    }

    // The formula back; 13 where the resource is none of the window's. With t = resource − N1, the region is that of t / M; each position
    // has as many resources there as the region has CCEs.
    pub fn inverse(self, resource: Resource) -> Result<(u16, Cce), Refusal>
        ensures { numbered result ≡ inverse_in self.nrb self.n1 self.size resource.0 }
    {
        let r = resource.0;
        if r < self.n1 {
            return Err(Refusal::Resource);
        }
        let t = r - self.n1;
        let Some(region) = region_of(self.nrb, self.size, t) else {
            return Err(Refusal::Resource);
        };
        let width = region.high - region.low;
        let x = t - self.size * region.low;
        Ok((x / width, Cce(region.low + x % width)))
    }
}
