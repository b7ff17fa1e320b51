// Windows, and the answer for a downlink subframe.
ghost use Rattle.std.specs.Prelude.{◌≡◌};
ghost use Rattle.frame.specs.Refusals.{numbered};
ghost use Rattle.frame.specs.Table.{window_of};
ghost use Rattle.numbers.specs.Answers.{window_as, answered_answer};
ghost use Rattle.numbers.specs.Windows.{answer_in, tested_answer};

use frame::{Answered, Refusal, Window};

// `size` is M, `k` has K in the print's order and `order` its positions in time order, zeros after the M entries of both; all 0 where
// refused.
#[repr(C)]
#[derive(Clone, Copy, Default)]
pub struct WindowAnswer {
    pub refusal: u16,
    pub size: u16,
    pub k: [u16; 9],
    pub order: [u16; 9],
}

// A list of one to four numbers or of nine, and zeros behind it. Macros, since a constant calls no function.
macro_rules! nine {
    ($a:expr) => {
        [$a, 0, 0, 0, 0, 0, 0, 0, 0]
    };
    ($a:expr, $b:expr) => {
        [$a, $b, 0, 0, 0, 0, 0, 0, 0]
    };
    ($a:expr, $b:expr, $c:expr) => {
        [$a, $b, $c, 0, 0, 0, 0, 0, 0]
    };
    ($a:expr, $b:expr, $c:expr, $d:expr) => {
        [$a, $b, $c, $d, 0, 0, 0, 0, 0]
    };
    ($($number:expr),+) => {
        [$($number),+]
    };
}

// The answer of a window, by M, K in the print's order and its positions in time order.
macro_rules! window {
    ($size:expr, [$($k:expr),+], [$($position:expr),+]) => {
        WindowAnswer {
            refusal: 0,
            size: $size,
            k: nine!($($k),+),
            order: nine!($($position),+),
        }
    };
}

// A subframe without a window.
const N: WindowAnswer = WindowAnswer {
    refusal: 0,
    size: 0,
    k: [0; 9],
    order: [0; 9],
};

// Derived from the frame's tables: the whole answer for each subframe of a configuration. Lists of other lengths would each be copied by a
// call. It is proved equal to what the frame's rows say.
#[rattlefmt::skip]
const WINDOWS: [[WindowAnswer; 10]; 7] = [
    [N, N, window!(1, [6], [0]), N, window!(1, [4], [0]), N, N, window!(1, [6], [0]), N, window!(1, [4], [0])],
    [N, N, window!(2, [7, 6], [0, 1]), window!(1, [4], [0]), N, N, N, window!(2, [7, 6], [0, 1]), window!(1, [4], [0]), N],
    [N, N, window!(4, [8, 7, 4, 6], [0, 1, 3, 2]), N, N, N, N, window!(4, [8, 7, 4, 6], [0, 1, 3, 2]), N, N],
    [N, N, window!(3, [7, 6, 11], [2, 0, 1]), window!(2, [6, 5], [0, 1]), window!(2, [5, 4], [0, 1]), N, N, N, N, N],
    [N, N, window!(4, [12, 8, 7, 11], [0, 3, 1, 2]), window!(4, [6, 5, 4, 7], [3, 0, 1, 2]), N, N, N, N, N, N],
    [N, N, window!(9, [13, 12, 9, 8, 7, 5, 4, 11, 6], [0, 1, 7, 2, 3, 4, 8, 5, 6]), N, N, N, N, N, N, N],
    [N, N, window!(1, [7], [0]), window!(1, [7], [0]), window!(1, [5], [0]), N, N, window!(1, [7], [0]), window!(1, [7], [0]), N],
];

// The answer in a table of answers; zeros where there is none.
#[tactic(auto, unfolding(crate::specs::Windows::answer_in))]
fn answer_in(rows: &'static [[WindowAnswer; 10]], config: u16, n: u16) -> WindowAnswer
    ensures { result ≡ answer_in rows.now config n }
{
    match rows.get(config as usize) {
        Some(row) => match row.get(n as usize) {
            Some(&answer) => answer,
            None => N,
        },
        None => N,
    }
}

// The answer of the window of subframe n; zeros where there is none.
fn answer_of(config: u16, n: u16) -> WindowAnswer
    ensures { result ≡ window_as 0 (window_of config n) }
{
    answer_in(&WINDOWS, config, n)
}

impl From<Result<Window, Refusal>> for WindowAnswer {
    ghost from_gives = { λ x a. a ≡ tested_answer x };

    #[tactic(auto, using(frame::proofs::Refused::from_one))]
    fn from(x: Result<Window, Refusal>) -> WindowAnswer {
        match x {
            Ok(window) => answer_of(window.settings.config, window.n),
            Err(refusal) => WindowAnswer {
                refusal: refusal.into(),
                ..WindowAnswer::default()
            },
        }
    }
}

// The uplink subframe n that answers for a downlink subframe, k subframes after it, and the position of that subframe in the window of
// n; all 0 where refused.
#[repr(C)]
#[derive(Clone, Copy, Default)]
pub struct AnsweredAnswer {
    pub refusal: u16,
    pub n: u16,
    pub k: u16,
    pub position: u16,
}

impl From<Result<Answered, Refusal>> for AnsweredAnswer {
    ghost from_gives = { λ x a. a ≡ answered_answer (numbered x) };

    fn from(x: Result<Answered, Refusal>) -> AnsweredAnswer {
        match x {
            Ok(answered) => AnsweredAnswer {
                refusal: 0,
                n: answered.n,
                k: answered.k,
                position: answered.position,
            },
            Err(refusal) => AnsweredAnswer {
                refusal: refusal.into(),
                ..AnsweredAnswer::default()
            },
        }
    }
}
