// The account of a tenant, which pays for delivered octets (document 02, U10): what it holds, when it is refused, and octets added to it.
#![tactic(auto)]

ghost use Rattle.std.specs.Prelude.{◌≡◌, ◌≤◌};
ghost use Rattle.frame.specs.Refusals.{refusal_in};
ghost use Rattle.account.specs.Account.{account_at, account_refusal, open_of, add_refusal, add_of};

use frame::Refusal;

// The octets credited so far, what they cost in smallest coins, the price in smallest coins per million octets, and what is left over
// in millionths of a smallest coin. An account that is lent may hold any numbers: a call refuses what 02 does not allow.
#[repr(C)]
#[derive(Clone, Copy, Debug, PartialEq, Eq)]
pub struct Account {
    pub octets: u64,
    pub charged: u64,
    pub price: u32,
    pub carry: u32,
}

impl Account {
    // A new account, with nothing credited. Its check refuses a price over 1,000,000, and so does each credit.
    #[tactic(auto, using(crate::proofs::Equation::new_refused), unfolding(crate::specs::Account::open_of))]
    pub fn new(price: u32) -> Account
        ensures account { result ≡ (open_of price).account }
        ensures refusal { account_refusal result ≡ (open_of price).refusal }
    {
        Account {
            octets: 0,
            charged: 0,
            price,
            carry: 0,
        }
    }

    // The account with these octets at the same price. Octets × price may pass 64 bits, so the whole millions of octets are taken apart
    // from the rest: of octets = q × 1,000,000 + rest, the q millions cost q × price with nothing left over.
    fn with_octets(&self, octets: u64) -> Account
        requires { self.now.price ≤ 1000000 }
        ensures { result ≡ account_at self.now.price octets }
    {
        let price = u64::from(self.price);
        let q = octets / 1000000;
        let part = (octets % 1000000) * price;
        Account {
            octets,
            charged: q * price + part / 1000000,
            price: self.price,
            carry: (part % 1000000) as u32,
        }
    }

    // 25: the price, the carry's bound or the equation. The octets and the price leave one choice of charged and carry, so to compare the
    // account with the one that is in order is to test the equation and the bound.
    #[tactic(auto, using(crate::proofs::Equation::price_off, crate::proofs::Equation::another, crate::proofs::Equation::same))]
    pub fn check(&self) -> Result<(), Refusal>
        ensures { refusal_in result ≡ account_refusal self.now }
    {
        if 1000000 < self.price || *self != self.with_octets(self.octets) {
            return Err(Refusal::SizeOrAccount);
        }
        Ok(())
    }

    // 25, then 26: a total that would pass 1,000,000,000,000 octets. The total of an account off that bound may pass 64 bits.
    #[tactic(auto, unfolding(crate::specs::Account::add_refusal))]
    fn check_add(&self, octets: u32) -> Result<(), Refusal>
        ensures { refusal_in result ≡ add_refusal self.now octets }
    {
        self.check()?;
        if 1000000000000 < self.octets.saturating_add(u64::from(octets)) {
            return Err(Refusal::Total);
        }
        Ok(())
    }

    // Octets are added to the account, and charged at its price; a refusal leaves it as it was.
    #[tactic(auto, using(crate::proofs::Totals::accepted), unfolding(crate::specs::Account::add_of))]
    pub fn add(&mut self, octets: u32) -> Result<(), Refusal>
        ensures refusal { refusal_in result ≡ (add_of self.old octets).refusal }
        ensures after { self.new ≡ (add_of self.old octets).account }
    {
        self.check_add(octets)?;
        *self = self.with_octets(self.octets + u64::from(octets));
        Ok(())
    }
}
