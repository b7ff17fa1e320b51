// The offsets of a map's resources: how far above N1 each stands.
ghost use Rattle.std.specs.Prelude.{◌≡◌, ◌*◌, ◌&&◌, ltb};
ghost use Rattle.resource.specs.Formula.{edge, edges_of, region_of};
ghost use Rattle.claims.specs.Offsets.{offset_of, bases_of, widths_of};

use resource::Map;

// What the offsets of a map are made of, the same for all claims, so that it is made once. The formula without N1,
// (M − m − 1) × N_p + m × N_(p+1) + c, is (M − 1) × N_p + m × (N_(p+1) − N_p) + c: `bases` has the first product for each region p, 0 to 3,
// `widths` the region's width, N_(p+1) − N_p, and `edges` has N_0 to N_4.
#[derive(Clone, Copy)]
pub(crate) struct Offsets {
    pub(crate) map: Map,
    edges: [u16; 5],
    bases: [u16; 4],
    widths: [u16; 4],
    ghost edges_made: { edges ≡ edges_of map.nrb },
    ghost bases_made: { bases ≡ bases_of map.nrb map.size },
    ghost widths_made: { widths ≡ widths_of map.nrb },
}

impl Offsets {
    #[tactic(auto, using(resource::proofs::Edges::edge_none, resource::proofs::Edges::edge_rises, crate::proofs::Offset::bases_most))]
    pub(crate) fn of(map: Map) -> Offsets
        ensures { result.map ≡ map }
    {
        let edges = map.edges();
        let [_, n1, n2, n3, n4] = edges;
        let rows = map.size - 1;
        Offsets {
            map,
            edges,
            bases: [0, rows * n1, rows * n2, rows * n3],
            widths: [n1, n2 - n1, n3 - n2, n4 - n3],
        }
    }

    // M × N_4, how many pairs have an offset; each of these is below it.
    #[tactic(auto, using(resource::proofs::Edges::resources_most))]
    pub(crate) fn count(&self) -> usize
        ensures { result ≡ self.now.map.size * edge self.now.map.nrb 4 }
    {
        usize::from(self.map.size) * usize::from(self.edges[4])
    }

    // m is below M and c below N_4. Both are looked at whatever the first one says, so that there is no branch.
    pub(crate) fn has(&self, m: u16, c: u16) -> bool
        ensures { result ≡ (ltb m self.now.map.size && ltb c (edge self.now.map.nrb 4)) }
    {
        (m < self.map.size) & (c < self.edges[4])
    }

    // The region of c, 3 too where c is not below N_4: as many of N_1, N_2 and N_3 do not lie above c. Counting them takes no branch.
    #[tactic(auto, using(resource::proofs::Edges::region_counted, frame::proofs::Bools::cast_bit))]
    fn region_of(&self, c: u16) -> usize
        ensures { result ≡ region_of self.now.map.nrb c }
    {
        usize::from(self.edges[1] <= c)
            + usize::from(self.edges[2] <= c)
            + usize::from(self.edges[3] <= c)
    }

    // The offset of (m, c); 0 where the map has no such pair, so that it is inside the window's marks whatever m and c are.
    #[tactic(auto, using(resource::proofs::Edges::region_most, crate::proofs::Offset::bases_and_widths, crate::proofs::Offset::offset_made), unfolding(crate::specs::Offsets::offset_of))]
    pub(crate) fn offset_of(&self, m: u16, c: u16) -> usize
        ensures { result ≡ offset_of self.now.map.nrb self.now.map.size m c }
    {
        let p = self.region_of(c);
        let t = usize::from(self.bases[p])
            + usize::from(m) * usize::from(self.widths[p])
            + usize::from(c);
        if self.has(m, c) { t } else { 0 }
    }
}
