// The frame of a TDD cell: its settings, its layout, and the windows of Table 10.1-1.
#![tactic(auto)]

mod answering;
mod backward;
mod digits;
mod refusal;
mod refusals;
mod special;
mod table;
mod window;

pub use answering::{before, shares_window};
pub use backward::letters_before;
pub use refusal::Refusal;
pub use special::no_pdsch;
pub use table::{
    distance_of, earliest_k_of, is_downlink, is_special, order_of, size_of, window_of,
};
pub use window::Window;

// The settings of a cell (document 01, "Settings"), as raw numbers: a call refuses what 01 does not allow. `config` is the
// uplink-downlink configuration, `nrb` is N_RB, `n1` is N1 (36.213's N_PUCCH^(1)), `mode` is 0 for bundling and 1 for multiplexing,
// `blocks` is the most transport blocks that a grant or a scheduled block carries. `scheduled` is the resource configured for
// scheduled blocks (document 02, U1), 65535 where none is set. `prefix` is 0 for the normal cyclic prefix and 1 for the extended one,
// `special` is the special subframe configuration (U2). `ports` is the number of antenna ports on which the handset sends (U9).
// A mode is no enum and the scheduled resource no Option, since a C caller fills them with any numbers.
#[repr(C)]
#[derive(Clone, Copy, Default)]
pub struct Settings {
    pub config: u16,
    pub nrb: u16,
    pub n1: u16,
    pub mode: u16,
    pub blocks: u16,
    pub scheduled: u16,
    pub prefix: u16,
    pub special: u16,
    pub ports: u16,
}

// The uplink subframe n that answers for a downlink subframe, k subframes after it, and the position of that subframe in the window
// of n.
#[derive(Clone, Copy)]
pub struct Answered {
    pub n: u16,
    pub k: u16,
    pub position: u16,
}
