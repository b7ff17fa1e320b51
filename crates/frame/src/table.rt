// The frame layouts and Table 10.1-1 (document 01, "Frame and windows"), one row of source for each configuration. A table is lent and
// looked up, not matched on: so it is read in its place, by one load, and the tables that a call reads don't become jumps by
// configuration.
ghost use Rattle.std.specs.Prelude.{◌≡◌, length, map};
ghost use Rattle.frame.specs.Coded.{letter_byte, letter_in, row_in, list_in, size_digits, earliest_digits, distance_digits, special_place, special_digits, answer_in, coded_answer};
ghost use Rattle.frame.specs.Distance.{distance_of};
ghost use Rattle.frame.specs.Earliest.{earliest_k};
ghost use Rattle.frame.specs.Layout.{letter_of, downlink, is_special};
ghost use Rattle.frame.specs.Order.{order_of};
ghost use Rattle.frame.specs.Table.{window_of};

use crate::Answered;
use crate::digits::digit_at;

// Configurations 0 to 6, subframes 0 to 9: D downlink, S special, U uplink.
const LAYOUTS: [[u8; 10]; 7] = [
    *b"DSUUUDSUUU",
    *b"DSUUDDSUUD",
    *b"DSUDDDSUDD",
    *b"DSUUUDDDDD",
    *b"DSUUDDDDDD",
    *b"DSUDDDDDDD",
    *b"DSUUUDSUUD",
];

// The letter in a table of layouts; U where there is none.
#[tactic(auto, unfolding(crate::specs::Coded::letter_in))]
fn letter_in(rows: &'static [[u8; 10]], config: u16, n: u16) -> u8
    ensures { result ≡ letter_in rows.now config n }
{
    match rows.get(config as usize) {
        Some(row) => match row.get(n as usize) {
            Some(&letter) => letter,
            None => b'U',
        },
        None => b'U',
    }
}

// The letter of subframe n of a configuration.
fn letter_of(config: u16, n: u16) -> u8
    ensures { result ≡ letter_byte (letter_of config n) }
{
    letter_in(&LAYOUTS, config, n)
}

// A subframe without a window.
const N: &[u16] = &[];

// Table 10.1-1: a row for each configuration and a column for each subframe 0 to 9, K in the print's order.
const WINDOWS: [[&[u16]; 10]; 7] = [
    [N, N, &[6], N, &[4], N, N, &[6], N, &[4]],
    [N, N, &[7, 6], &[4], N, N, N, &[7, 6], &[4], N],
    [N, N, &[8, 7, 4, 6], N, N, N, N, &[8, 7, 4, 6], N, N],
    [N, N, &[7, 6, 11], &[6, 5], &[5, 4], N, N, N, N, N],
    [N, N, &[12, 8, 7, 11], &[6, 5, 4, 7], N, N, N, N, N, N],
    [N, N, &[13, 12, 9, 8, 7, 5, 4, 11, 6], N, N, N, N, N, N, N],
    [N, N, &[7], &[7], &[5], N, N, &[7], &[7], N],
];

// The list in a table of lists; the empty one where there is none.
#[tactic(auto, unfolding(crate::specs::Coded::list_in))]
fn list_in(rows: &'static [[&'static [u16]; 10]], config: u16, n: u16) -> &'static [u16]
    ensures { result.now ≡ list_in (map (map (λ ks. ks.now)) rows.now) config n }
{
    match rows.get(config as usize) {
        Some(row) => match row.get(n as usize) {
            Some(&list) => list,
            None => &[],
        },
        None => &[],
    }
}

// The window of subframe n: K in the print's order, so that M is its length. Empty where there is none, outside the table too.
pub fn window_of(config: u16, n: u16) -> &'static [u16]
    ensures { result.now ≡ window_of config n }
{
    list_in(&WINDOWS, config, n)
}

// The row in a table of numbers; 0 where there is none.
#[tactic(auto, unfolding(crate::specs::Coded::row_in))]
pub fn digits_in(rows: &'static [u64], row: u16) -> u64
    ensures { result ≡ row_in rows.now row }
{
    match rows.get(row as usize) {
        Some(&digits) => digits,
        None => 0,
    }
}

// Derived from the rows: M of subframes 9 to 0 of a configuration, a digit each; 0 where there is no window. The four tables of digits
// stand beside the rows for speed, since the largest k, a distance and a special subframe would be searches of the rows. They are proved
// equal to what the rows say.
fn sizes_of(config: u16) -> u64
    ensures { result ≡ size_digits config }
{
    digits_in(
        &[
            0x1010010100,
            0x0120001200,
            0x0040000400,
            0x0000022300,
            0x0000004400,
            0x0000000900,
            0x0110011100,
        ],
        config,
    )
}

// Derived from the rows: the largest k of subframes 9 to 0 of a configuration, a digit each; 0 where there is no window.
fn earliest_ks_of(config: u16) -> u64
    ensures { result ≡ earliest_digits config }
{
    digits_in(
        &[
            0x4060040600,
            0x0470004700,
            0x0080000800,
            0x0000056B00,
            0x0000007C00,
            0x0000000D00,
            0x0770057700,
        ],
        config,
    )
}

// Derived from the rows: how far after subframes 9 to 0 of a configuration the uplink subframe stands that answers for each, a digit
// each; 0 for an uplink subframe.
fn distances_of(config: u16) -> u64
    ensures { result ≡ distance_digits config }
{
    digits_in(
        &[
            0x0006400064,
            0x4006740067,
            0x8406784067,
            0x55667000B4,
            0x45677800BC,
            0xD4567890BC,
            0x5007700077,
        ],
        config,
    )
}

// Derived from the rows: where the special subframe of a configuration's windows stands in each, of subframes 9 to 0, a digit each: 1 for
// position 0, and so on; 0 for a window without one. No window has two.
fn specials_of(config: u16) -> u64
    ensures { result ≡ special_digits config }
{
    digits_in(
        &[
            0x0010000100,
            0x0020000200,
            0x0040000400,
            0x0000000300,
            0x0000000400,
            0x0000000800,
            0x0100001000,
        ],
        config,
    )
}

// The answer for a downlink subframe, by n, k and its position; and a subframe without one. A macro, since a constant calls no function.
macro_rules! at {
    ($n:expr, $k:expr, $position:expr) => {
        Answered {
            n: $n,
            k: $k,
            position: $position,
        }
    };
}

const NO: Answered = at!(0, 0, 0);

// Derived from the rows: the answer for each subframe of a configuration, none for an uplink one. It is one lookup, where two numbers of
// digits and a sum would be three steps.
#[rattlefmt::skip]
const ANSWERED: [[Answered; 10]; 7] = [
    [at!(4, 4, 0), at!(7, 6, 0), NO, NO, NO, at!(9, 4, 0), at!(2, 6, 0), NO, NO, NO],
    [at!(7, 7, 0), at!(7, 6, 1), NO, NO, at!(8, 4, 0), at!(2, 7, 0), at!(2, 6, 1), NO, NO, at!(3, 4, 0)],
    [at!(7, 7, 1), at!(7, 6, 3), NO, at!(7, 4, 2), at!(2, 8, 0), at!(2, 7, 1), at!(2, 6, 3), NO, at!(2, 4, 2), at!(7, 8, 0)],
    [at!(4, 4, 1), at!(2, 11, 2), NO, NO, NO, at!(2, 7, 0), at!(2, 6, 1), at!(3, 6, 0), at!(3, 5, 1), at!(4, 5, 0)],
    [at!(2, 12, 0), at!(2, 11, 3), NO, NO, at!(2, 8, 1), at!(2, 7, 2), at!(3, 7, 3), at!(3, 6, 0), at!(3, 5, 1), at!(3, 4, 2)],
    [at!(2, 12, 1), at!(2, 11, 7), NO, at!(2, 9, 2), at!(2, 8, 3), at!(2, 7, 4), at!(2, 6, 8), at!(2, 5, 5), at!(2, 4, 6), at!(2, 13, 0)],
    [at!(7, 7, 0), at!(8, 7, 0), NO, NO, NO, at!(2, 7, 0), at!(3, 7, 0), NO, NO, at!(4, 5, 0)],
];

// The answer in a table of answers; none where there is none.
#[tactic(auto, unfolding(crate::specs::Coded::answer_in))]
fn answer_in(rows: &'static [[Answered; 10]], config: u16, d: u16) -> Answered
    ensures { result ≡ answer_in rows.now config d }
{
    match rows.get(config as usize) {
        Some(row) => match row.get(d as usize) {
            Some(&answer) => answer,
            None => NO,
        },
        None => NO,
    }
}

// Derived from the rows: the positions of the windows with k falling, that is in time order; a table, since a sort would need room for its
// list.
const ORDERS: [[&[u16]; 10]; 7] = [
    [N, N, &[0], N, &[0], N, N, &[0], N, &[0]],
    [N, N, &[0, 1], &[0], N, N, N, &[0, 1], &[0], N],
    [N, N, &[0, 1, 3, 2], N, N, N, N, &[0, 1, 3, 2], N, N],
    [N, N, &[2, 0, 1], &[0, 1], &[0, 1], N, N, N, N, N],
    [N, N, &[0, 3, 1, 2], &[3, 0, 1, 2], N, N, N, N, N, N],
    [N, N, &[0, 1, 7, 2, 3, 4, 8, 5, 6], N, N, N, N, N, N, N],
    [N, N, &[0], &[0], &[0], N, N, &[0], &[0], N],
];

// The positions of the window of subframe n in time order. Empty where there is no window.
pub fn order_of(config: u16, n: u16) -> &'static [u16]
    ensures { result.now ≡ order_of (window_of config n) }
{
    list_in(&ORDERS, config, n)
}

// Subframe n is downlink, D or S: a PDCCH can be sent there.
#[tactic(auto, using(crate::proofs::Layouts::downlink_byte))]
pub fn is_downlink(config: u16, n: u16) -> bool
    ensures { result ≡ downlink config n }
{
    letter_of(config, n) != b'U'
}

// Subframe n is special, S.
#[tactic(auto, using(crate::proofs::Layouts::special_byte))]
pub fn is_special(config: u16, n: u16) -> bool
    ensures { result ≡ is_special config n }
{
    letter_of(config, n) == b'S'
}

// M of the window of subframe n; 0 where there is none, outside the table too.
#[tactic(auto, using(crate::proofs::Lookups::size_at))]
pub fn size_of(config: u16, n: u16) -> u16
    ensures { result ≡ length (window_of config n) }
{
    digit_at(sizes_of(config), n)
}

// How many subframes before n the earliest one of its window is; 0 where there is no window, outside the table too.
#[tactic(auto, using(crate::proofs::Lookups::earliest_at))]
pub fn earliest_k_of(config: u16, n: u16) -> u16
    ensures { result ≡ earliest_k config n }
{
    digit_at(earliest_ks_of(config), n)
}

// How far after subframe d, of an endless run, the uplink subframe stands that answers for it; 0 where there is none.
#[tactic(auto, using(crate::proofs::Lookups::distance_at))]
pub fn distance_of(config: u16, d: u16) -> u16
    ensures { result ≡ distance_of config d }
{
    digit_at(distances_of(config), d % 10)
}

// The answer for downlink subframe d of a frame; n, k and position 0 for any other.
pub fn answer_of(config: u16, d: u16) -> Answered
    ensures { result ≡ coded_answer config d }
{
    answer_in(&ANSWERED, config, d)
}

// Where the special subframe stands in the window of subframe n: 1 for position 0, and so on; 0 where the window has none.
#[tactic(auto, using(crate::proofs::Lookups::special_at))]
pub fn special_of(config: u16, n: u16) -> u16
    ensures { result ≡ special_place config n }
{
    digit_at(specials_of(config), n)
}
