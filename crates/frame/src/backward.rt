// The frame read backward, as a memory has it: the newest subframe first.
ghost use Rattle.std.specs.Prelude.{◌≡◌};
ghost use Rattle.frame.specs.Letters.{backward_rows, letters_before};

// The letters of each configuration's subframes from 9 to 0, and on through the frames before, so that sixteen of them begin at each
// subframe.
const ROWS: [[u8; 26]; 7] = [
    *b"UUUSDUUUSDUUUSDUUUSDUUUSDU",
    *b"DUUSDDUUSDDUUSDDUUSDDUUSDD",
    *b"DDUSDDDUSDDDUSDDDUSDDDUSDD",
    *b"DDDDDUUUSDDDDDDUUUSDDDDDDU",
    *b"DDDDDDUUSDDDDDDDUUSDDDDDDD",
    *b"DDDDDDDUSDDDDDDDDUSDDDDDDD",
    *b"DUUSDUUUSDDUUSDUUUSDDUUSDU",
];

#[tactic(auto, unfolding(crate::specs::Letters::backward_rows, crate::specs::Letters::backward_row, crate::specs::Layout::letter_of, crate::specs::Layout::layouts))]
fn rows() -> &'static [[u8; 26]]
    ensures { result.now ≡ backward_rows }
{
    &ROWS
}

// The letters of the sixteen subframes before n, the newest first; U in a configuration over 6. Sixteen, of which a handset remembers
// 13, are tested four at a time.
#[tactic(auto, using(crate::proofs::Letters::letters_found, crate::proofs::Letters::rows_seven, crate::proofs::Letters::no_letters))]
pub fn letters_before(config: u16, n: u16) -> [u8; 16]
    ensures { result ≡ letters_before config n }
{
    let mut letters = [b'U'; 16];
    if let Some(row) = rows().get(usize::from(config)) {
        let from = usize::from((10 - n % 10) % 10);
        letters.copy_from_slice(&row[from..from + 16]);
    }
    letters
}
