// What claims of a cell come to.
ghost use Rattle.std.specs.Prelude.{◌≡◌};
ghost use Rattle.claims.specs.Claims.{numbered_claims};
ghost use Rattle.numbers.specs.Answers.{claims_answer};

use crate::kinds::ClaimsKind;
use claims::RefusedClaims;
use frame::Refusal;

// Kind 1 is clean, 2 a clash with the index of the first claim that clashes with an earlier one; 0 where refused, and 16 has the
// index of the first bad claim.
#[repr(C)]
#[derive(Clone, Copy)]
pub struct ClaimsAnswer {
    pub refusal: u16,
    pub kind: u16,
    pub index: u64,
}

impl From<Result<Option<usize>, RefusedClaims>> for ClaimsAnswer {
    ghost from_gives = { λ x a. a ≡ claims_answer (numbered_claims x) };

    fn from(x: Result<Option<usize>, RefusedClaims>) -> ClaimsAnswer {
        let (refusal, kind, index) = match x {
            Ok(None) => (0, ClaimsKind::Clean, 0),
            Ok(Some(index)) => (0, ClaimsKind::Clash, index),
            Err(RefusedClaims::Refused(refusal)) => (refusal.into(), ClaimsKind::Refused, 0),
            Err(RefusedClaims::BadClaim(index)) => {
                (Refusal::Claim.into(), ClaimsKind::Refused, index)
            }
        };
        ClaimsAnswer {
            refusal,
            kind: kind as u16,
            index: index as u64,
        }
    }
}
