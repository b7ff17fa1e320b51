// Claims of a cell (document 01): which claim is the first that clashes with an earlier one. With one antenna port that is one that
// equals it, with two one that shares a resource with it (document 02, U9). The scratch has a byte for each resource or a bit for each
// (U6).
#![tactic(auto)]

mod offsets;
mod scratch;
mod window;

ghost use Rattle.std.specs.Prelude.{◌≡◌, ◌++◌, length, drop, IfErr};
ghost use Rattle.claims.specs.Bits.{bit_checked_of, bit_scratch_of};
ghost use Rattle.claims.specs.Claims.{room_of, first_clash, numbered_claims, BadByIndex, checked_with, marked, checked_of, scratch_after, scratch_of};
ghost use Rattle.claims.specs.declared.RefusedClaims.TheVariants.{Refused};

use frame::{Refusal, Settings, Window};
use scratch::{Bits, Bytes, Form};
use window::ClaimedWindow;

// Why claims are refused: a refusal of settings, subframe or scratch, or a bad claim, 16, the first of which has this index.
#[derive(Clone, Copy, Debug, PartialEq, Eq)]
pub enum RefusedClaims {
    Refused(Refusal),
    BadClaim(usize),
}

impl From<Refusal> for RefusedClaims {
    ghost from_gives = { λ r e. e ≡ Refused r };

    fn from(refusal: Refusal) -> RefusedClaims {
        RefusedClaims::Refused(refusal)
    }
}

// The index of the first of the claims of uplink subframe n that clashes with an earlier one; None where they are clean. Unless they
// are refused, the scratch then holds the marks of the claims before the clash, of all claims where there is none: a byte for each
// resource.
#[tactic(auto, unfolding(crate::specs::Claims::scratch_of, crate::specs::Claims::marked_up_to))]
pub fn claims_of(
    s: Settings,
    n: u16,
    claims: &[u16],
    scratch: &mut [u8],
) -> Result<Option<usize>, RefusedClaims>
    ensures value { numbered_claims result ≡ checked_of s n claims.now (length scratch.old) }
    ensures bad_claim { IfErr result BadByIndex }
    ensures scratch_after { scratch.new ≡ scratch_of s n claims.now scratch.old }
{
    answer_in::<Bytes>(s, n, claims, scratch)
}

// The same with an eighth of the scratch: the offset t of a resource has bit t % 8 of byte t / 8.
#[tactic(auto, unfolding(crate::specs::Bits::bit_scratch_of, crate::specs::Bits::bit_room_of, crate::specs::Bits::bit_marked_up_to))]
pub fn claims_in_bits(
    s: Settings,
    n: u16,
    claims: &[u16],
    scratch: &mut [u8],
) -> Result<Option<usize>, RefusedClaims>
    ensures value { numbered_claims result ≡ bit_checked_of s n claims.now (length scratch.old) }
    ensures bad_claim { IfErr result BadByIndex }
    ensures scratch_after { scratch.new ≡ bit_scratch_of s n claims.now scratch.old }
{
    answer_in::<Bits>(s, n, claims, scratch)
}

// The answer in a form of the scratch, and each refusal of a call. Settings, n, list and scratch stay four parameters here and above: the C
// calls have them so, one call for each form, and a struct of them would be taken apart at once.
#[tactic(auto, using(crate::proofs::Checks::window_refused, crate::proofs::Checks::scratch_refused, crate::proofs::Checks::answered, crate::proofs::Checks::none_bad, crate::proofs::Checks::no_claim))]
fn answer_in<F: Form>(
    s: Settings,
    n: u16,
    claims: &[u16],
    scratch: &mut [u8],
) -> Result<Option<usize>, RefusedClaims>
    ensures value { numbered_claims result ≡ checked_with s n claims.now (F.room (room_of s n)) (length scratch.old) }
    ensures bad_claim { IfErr result BadByIndex }
    ensures scratch_after { scratch.new ≡ scratch_after (numbered_claims result) (F.laid (marked s n claims.now (first_clash s n claims.now)) (room_of s n) ++ drop (F.room (room_of s n)) scratch.old) scratch.old }
{
    let window = ClaimedWindow::of(Window::new(s, n)?);
    let room = F::room(window.marks);
    if scratch.len() < room {
        return Err(Refusal::Scratch.into());
    }
    if let Some(index) = window.first_bad(claims) {
        return Err(RefusedClaims::BadClaim(index));
    }
    Ok(window.mark_to_clash::<F>(claims, &mut scratch[..room]))
}
