// Channel selection (document 01, "The multiplexed reply"): Tables 10.1-2 to 10.1-4 of TS 36.213, one row of source for each row
// of the print, in its order; the symbol of a window's state; and what a symbol delivers ("The station's reading").
#![tactic(auto)]

ghost use Rattle.std.specs.Prelude.{◌≡◌, map, slice_get};
ghost use Rattle.symbols.specs.Coded.{printed, states_of, symbol_at};
ghost use Rattle.symbols.specs.Delivered.{delivery_of};
ghost use Rattle.symbols.specs.Selection.{table_of, symbol_of};
ghost use Rattle.symbols.specs.declared.TheConstants.{DELIVERED};

use Cell::{Ack, Dtx, Nack, NackDtx};

// A position's state: A, N or D.
#[derive(Clone, Copy, PartialEq, Eq)]
pub enum State {
    Ack,
    Nack,
    Dtx,
}

// A symbol (document 01's term): what is sent for a window's state, index and the bits b0, b1. There is none where nothing is sent.
#[derive(Clone, Copy, PartialEq, Eq)]
pub struct Symbol {
    pub index: u16,
    pub b0: u16,
    pub b1: u16,
}

// A cell of the print. NackDtx is "NACK/DTX".
#[derive(Clone, Copy, PartialEq, Eq)]
pub enum Cell {
    Ack,
    Nack,
    Dtx,
    NackDtx,
}

// A row of the print: HARQ-ACK(0), HARQ-ACK(1), .., then what is sent: index and bits, or nothing where they are "N/A".
#[derive(Clone, Copy)]
pub struct TableRow {
    pub cells: &'static [Cell],
    pub says: Option<Symbol>,
}

// A row as the print has it: the cells, the index, b0 and b1, or NA for these three. A macro, since a constant calls no function.
macro_rules! row {
    ($cells:expr, NA) => {
        TableRow {
            cells: &$cells,
            says: None,
        }
    };
    ($cells:expr, $index:expr, $b0:expr, $b1:expr) => {
        TableRow {
            cells: &$cells,
            says: Some(Symbol {
                index: $index,
                b0: $b0,
                b1: $b1,
            }),
        }
    };
}

// Tables 10.1-2 to 10.1-4, row by row, are for print. Replies and readings use lookups derived from the same rows, proved equal to
// them, which stand beside them for speed: a search of the rows was tried, and for M = 4 it takes 92 ns to find a state's symbol where
// its number and a lookup take 19, and 47 ns to read a symbol where a lookup takes 10.

// Table 10.1-2: M = 2.
const TABLE2: [TableRow; 6] = [
    row!([Ack, Ack], 1, 1, 1),
    row!([Ack, NackDtx], 0, 0, 1),
    row!([NackDtx, Ack], 1, 0, 0),
    row!([NackDtx, Nack], 1, 1, 0),
    row!([Nack, Dtx], 0, 1, 0),
    row!([Dtx, Dtx], NA),
];

// Table 10.1-3: M = 3.
const TABLE3: [TableRow; 11] = [
    row!([Ack, Ack, Ack], 2, 1, 1),
    row!([Ack, Ack, NackDtx], 1, 1, 1),
    row!([Ack, NackDtx, Ack], 0, 1, 1),
    row!([Ack, NackDtx, NackDtx], 0, 0, 1),
    row!([NackDtx, Ack, Ack], 2, 1, 0),
    row!([NackDtx, Ack, NackDtx], 1, 0, 0),
    row!([NackDtx, NackDtx, Ack], 2, 0, 0),
    row!([Dtx, Dtx, Nack], 2, 0, 1),
    row!([Dtx, Nack, NackDtx], 1, 1, 0),
    row!([Nack, NackDtx, NackDtx], 0, 1, 0),
    row!([Dtx, Dtx, Dtx], NA),
];

// Table 10.1-4: M = 4.
const TABLE4: [TableRow; 20] = [
    row!([Ack, Ack, Ack, Ack], 1, 1, 1),
    row!([Ack, Ack, Ack, NackDtx], 1, 1, 0),
    row!([NackDtx, NackDtx, Nack, Dtx], 2, 1, 1),
    row!([Ack, Ack, NackDtx, Ack], 1, 1, 0),
    row!([Nack, Dtx, Dtx, Dtx], 0, 1, 0),
    row!([Ack, Ack, NackDtx, NackDtx], 1, 1, 0),
    row!([Ack, NackDtx, Ack, Ack], 3, 0, 1),
    row!([NackDtx, NackDtx, NackDtx, Nack], 3, 1, 1),
    row!([Ack, NackDtx, Ack, NackDtx], 2, 0, 1),
    row!([Ack, NackDtx, NackDtx, Ack], 0, 0, 1),
    row!([Ack, NackDtx, NackDtx, NackDtx], 0, 1, 1),
    row!([NackDtx, Ack, Ack, Ack], 3, 0, 1),
    row!([NackDtx, Nack, Dtx, Dtx], 1, 0, 0),
    row!([NackDtx, Ack, Ack, NackDtx], 2, 1, 0),
    row!([NackDtx, Ack, NackDtx, Ack], 3, 1, 0),
    row!([NackDtx, Ack, NackDtx, NackDtx], 1, 0, 1),
    row!([NackDtx, NackDtx, Ack, Ack], 3, 0, 1),
    row!([NackDtx, NackDtx, Ack, NackDtx], 2, 0, 0),
    row!([NackDtx, NackDtx, NackDtx, Ack], 3, 0, 0),
    row!([Dtx, Dtx, Dtx, Dtx], NA),
];

// Derived from the tables: the numbers of the symbols of states 0, 1, 2, .., but for the last state, D at every position, which is
// silent. A state's number has a base-3 digit for each position, position 0 first: 0 for A, 1 for N, 2 for D. A symbol's number is
// index × 4 + b0 × 2 + b1: a `Symbol` for each of the 114 states would be no plainer, since each would stand on a line of its own.

// M = 2.
const SYMBOLS2: [u16; 8] = [7, 1, 1, 4, 6, 2, 4, 6];

// M = 3.
const SYMBOLS3: [u16; 26] = [
    11, 7, 7, 3, 1, 1, 3, 1, 1, 10, 4, 4, 8, 2, 2, 8, 2, 2, 10, 4, 4, 8, 6, 6, 8, 9,
];

// M = 4.
const SYMBOLS4: [u16; 80] = [
    7, 6, 6, 6, 6, 6, 6, 6, 6, 13, 9, 9, 1, 3, 3, 1, 3, 3, 13, 9, 9, 1, 3, 3, 1, 3, 3, 13, 10, 10,
    14, 5, 5, 14, 5, 5, 13, 8, 8, 12, 15, 11, 12, 15, 4, 13, 8, 8, 12, 15, 11, 12, 15, 2, 13, 10,
    10, 14, 5, 5, 14, 5, 5, 13, 8, 8, 12, 15, 11, 12, 15, 4, 13, 8, 8, 12, 15, 11, 12, 15,
];

// Derived from the tables: what the symbols deliver for M = 2, 3 and 4, by index, b0 and b1; None for a symbol in no row. Bit p is set
// for position p.
const DELIVERED: [[[[Option<u16>; 2]; 2]; 4]; 3] = [
    [
        [[None, Some(1)], [Some(0), None]],
        [[Some(2), None], [Some(0), Some(3)]],
        [[None, None], [None, None]],
        [[None, None], [None, None]],
    ],
    [
        [[None, Some(1)], [Some(0), Some(5)]],
        [[Some(2), None], [Some(0), Some(3)]],
        [[Some(4), Some(0)], [Some(6), Some(7)]],
        [[None, None], [None, None]],
    ],
    [
        [[None, Some(9)], [Some(0), Some(1)]],
        [[Some(0), Some(2)], [Some(3), Some(15)]],
        [[Some(4), Some(5)], [Some(6), Some(0)]],
        [[Some(8), Some(12)], [Some(10), Some(0)]],
    ],
];

// The rows of the table for M = size; none where no table is for M.
#[tactic(auto, unfolding(crate::specs::Selection::table_of, crate::specs::Selection::table2, crate::specs::Selection::table3, crate::specs::Selection::table4))]
pub fn table_of(size: u16) -> &'static [TableRow]
    ensures { map printed result.now ≡ table_of size }
{
    match size {
        2 => &TABLE2,
        3 => &TABLE3,
        4 => &TABLE4,
        _ => &[],
    }
}

// The symbol whose number is at a place of a list; none past its end.
fn symbol_in(numbers: &[u16], place: u16) -> Option<Symbol>
    ensures { result ≡ slice_get (map symbol_at numbers.now) place }
{
    numbers.get(usize::from(place)).map(|number| Symbol {
        index: *number / 4,
        b0: *number / 2 % 2,
        b1: *number % 2,
    })
}

// The symbol of the state with that number, of M = size positions; none where it is silent, and where no table is for M. A state's
// number counts modulo the number of states.
pub fn symbol_of(size: u16, code: u16) -> Option<Symbol>
    ensures { result ≡ symbol_of (states_of size code) }
{
    match size {
        2 => symbol_in(&SYMBOLS2, code % 9),
        3 => symbol_in(&SYMBOLS3, code % 27),
        4 => symbol_in(&SYMBOLS4, code % 81),
        _ => None,
    }
}

// The sets, as memory that is read in place: an index into the constant itself would copy all of it at every call.
fn deliveries() -> &'static [[[[Option<u16>; 2]; 2]; 4]]
    ensures { result.now ≡ DELIVERED }
{
    &DELIVERED
}

// What a symbol delivers for M = size: the positions that are A in every state whose symbol this is, bit p for position p; nothing
// where the symbol is in no row.
#[tactic(auto, using(crate::proofs::Reading::in_row))]
pub fn delivered(size: u16, symbol: Symbol) -> Option<u16>
    ensures { result ≡ delivery_of size symbol.index symbol.b0 symbol.b1 }
{
    let Symbol { index, b0, b1 } = symbol;
    if !(2..=4).contains(&size) || index > 3 || b0 > 1 || b1 > 1 {
        return None;
    }
    deliveries()[usize::from(size - 2)][usize::from(index)][usize::from(b0)][usize::from(b1)]
}
