// What a reply to a sent window confirms, and what it is worth.
ghost use Rattle.std.specs.Prelude.{◌≡◌};
ghost use Rattle.frame.specs.Refusals.{refusal_in};
ghost use Rattle.confirming.specs.Blocks.{confirmed_as};
ghost use Rattle.credit.specs.Credit.{credited_as};
ghost use Rattle.numbers.specs.Answers.{confirmed_answer, opened_answer, credit_answer};

use account::Account;
use confirming::Blocks;
use frame::Refusal;

// The confirmed blocks, bit p for position p: the first block there or the only one, and the second; none where refused.
#[repr(C)]
#[derive(Clone, Copy, Default)]
pub struct ConfirmedAnswer {
    pub refusal: u16,
    pub first: u16,
    pub second: u16,
}

impl From<Result<Blocks, Refusal>> for ConfirmedAnswer {
    ghost from_gives = { λ x a. a ≡ confirmed_answer (confirmed_as x) };

    fn from(x: Result<Blocks, Refusal>) -> ConfirmedAnswer {
        match x {
            Ok(blocks) => ConfirmedAnswer {
                refusal: 0,
                first: blocks.first.0,
                second: blocks.second.0,
            },
            Err(refusal) => ConfirmedAnswer {
                refusal: refusal.into(),
                ..ConfirmedAnswer::default()
            },
        }
    }
}

// A new account; beside a refusal one with the price given, which every credit refuses.
#[repr(C)]
#[derive(Clone, Copy)]
pub struct OpenedAnswer {
    pub refusal: u16,
    pub account: Account,
}

// A new account's check, and the account.
impl From<(Result<(), Refusal>, Account)> for OpenedAnswer {
    ghost from_gives = { λ x a. a ≡ opened_answer (record { refusal = refusal_in x.0; account = x.1 }) };

    fn from((checked, account): (Result<(), Refusal>, Account)) -> OpenedAnswer {
        OpenedAnswer {
            refusal: checked.map_or_else(u16::from, |()| 0),
            account,
        }
    }
}

// The octets credited, none where refused, and the account afterwards; beside a refusal it is as it was.
#[repr(C)]
#[derive(Clone, Copy)]
pub struct CreditAnswer {
    pub refusal: u16,
    pub octets: u32,
    pub account: Account,
}

// The octets that a call credited, and the account after it.
impl From<(Result<u32, Refusal>, Account)> for CreditAnswer {
    ghost from_gives = { λ x a. a ≡ credit_answer (credited_as x.0 x.1) };

    fn from((credited, account): (Result<u32, Refusal>, Account)) -> CreditAnswer {
        let (refusal, octets) = match credited {
            Ok(octets) => (0, octets),
            Err(refusal) => (refusal.into(), 0),
        };
        CreditAnswer {
            refusal,
            octets,
            account,
        }
    }
}
