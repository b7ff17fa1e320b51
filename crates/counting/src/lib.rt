// How many windows the subframes from a frame's start complete (document 02, U3, 23; U14).
#![tactic(auto)]

ghost use Rattle.std.specs.Prelude.{◌≡◌, ◌%◌};
ghost use Rattle.counting.specs.Windows.{complete_at, complete_in, windows_before};

// Derived from Table 10.1-1: for each configuration how many windows subframes 0 to n complete, n 0 to 9. A table, since counting them
// takes 30 ns where a lookup takes 3.
const COMPLETE: [[u16; 10]; 7] = [
    [0, 0, 1, 1, 2, 2, 2, 3, 3, 4],
    [0, 0, 1, 2, 2, 2, 2, 3, 4, 4],
    [0, 0, 1, 1, 1, 1, 1, 2, 2, 2],
    [0, 0, 1, 2, 3, 3, 3, 3, 3, 3],
    [0, 0, 1, 2, 2, 2, 2, 2, 2, 2],
    [0, 0, 1, 1, 1, 1, 1, 1, 1, 1],
    [0, 0, 1, 2, 3, 3, 3, 4, 5, 5],
];

// The number in a table of them; 0 where there is none.
#[tactic(auto, unfolding(crate::specs::Windows::complete_in))]
fn complete_in(rows: &'static [[u16; 10]], config: u16, n: u16) -> u16
    ensures { result ≡ complete_in rows.now config n }
{
    match rows.get(usize::from(config)) {
        Some(row) => row.get(usize::from(n)).copied().unwrap_or(0),
        None => 0,
    }
}

// The windows that subframes 0 to n of a frame complete.
fn complete(config: u16, n: u16) -> u16
    ensures { result ≡ complete_at config n }
{
    complete_in(&COMPLETE, config, n)
}

// The windows that the first `count` subframes complete, by whole frames and the rest.
#[tactic(auto, using(crate::proofs::Frames::by_frames))]
pub fn windows_before(config: u16, count: u16) -> u16
    ensures { result ≡ windows_before config count }
{
    let frames = count / 10 * complete(config, 9);
    match (count % 10).checked_sub(1) {
        Some(last) => frames + complete(config, last),
        None => frames,
    }
}
