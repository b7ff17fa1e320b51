// Crediting delivered octets to an account (document 02, U10): what a reply to a sent window is worth.
#![tactic(auto)]

mod octets;

ghost use Rattle.std.specs.Prelude.{◌≡◌, length};
ghost use Rattle.frame.specs.Refusals.{refusal_in, numbered, unless_refused, number_in};
ghost use Rattle.frame.specs.Settings.{or_else};
ghost use Rattle.confirming.specs.Coded.{k_in, records_in};
ghost use Rattle.account.specs.Account.{account_refusal};
ghost use Rattle.credit.specs.Credit.{bad_size, bad_record, bad_records, sizes_refusal, credited_octets, credited_as, credit_of};

use account::Account;
use confirming::{Sent, SentIn, SentWindow};
use frame::{Refusal, Settings};
use octets::{octets_of, own_blocks};
use resource::Resource;
use station::Reading;

// A block's size index or width is out of range. `sizes` makes the test again before a lookup, so that its own answer is whole; asked of
// `block_size`, which is 0 there, it would cost each block a lookup more. They are two numbers here and in `octets_if`, as in the C
// struct, which has four fields for its two blocks: a struct of the two would be built by each call and taken apart here.
#[tactic(auto, using(frame::proofs::Causes::decided), unfolding(crate::specs::Credit::bad_size))]
fn is_bad_size(itbs: u16, nprb: u16) -> bool
    ensures { result ≡ bad_size itbs nprb }
{
    (26 < itbs) | !(1..=110).contains(&nprb)
}

// So is that of one of the blocks that a record carries. No branch on how many, for speed.
#[tactic(auto, using(frame::proofs::Causes::decided), unfolding(crate::specs::Credit::bad_record))]
fn has_bad_size(x: &Sent) -> bool
    ensures { result ≡ bad_record x.now }
{
    ((0 < x.blocks) & is_bad_size(x.itbs0, x.nprb0))
        | ((1 < x.blocks) & is_bad_size(x.itbs1, x.nprb1))
}

// So is that of one of the window's records.
fn has_bad_sizes(window: SentIn) -> bool
    ensures { result ≡ bad_records (records_in window.entry) }
{
    window.records().iter().any(has_bad_size)
}

// The sizes of the blocks that were sent: 25.
#[tactic(auto, using(frame::proofs::Causes::decided), unfolding(crate::specs::Credit::sizes_refusal))]
fn check_sizes(window: SentIn) -> Result<(), Refusal>
    ensures { refusal_in result ≡ sizes_refusal (length (k_in window.entry)) window.entry.sent.now }
{
    if has_bad_sizes(window) {
        return Err(Refusal::SizeOrAccount);
    }
    Ok(())
}

// 25 for the sizes, then for the price and the account.
#[tactic(auto, using(frame::proofs::Refused::first_refused, frame::proofs::Refused::first_accepted))]
fn check_charge(window: SentIn, account: &Account) -> Result<(), Refusal>
    ensures { refusal_in result ≡ or_else (sizes_refusal (length (k_in window.entry)) window.entry.sent.now) (account_refusal account.now) }
{
    check_sizes(window)?;
    account.check()
}

// The octets that a reading credits; a refused one credits none, and its refusal is answered.
fn credited_octets(window: SentIn, reading: Result<Reading, Refusal>) -> Result<u32, Refusal>
    ensures { numbered result ≡ unless_refused (number_in (numbered reading)) (credited_octets window.entry.settings.config window.entry.n window.entry.sent.now (numbered reading)) }
{
    let confirmed = window.confirmed(reading)?;
    Ok(octets_of(window, own_blocks(reading, confirmed)))
}

// The octets credited for the reply that came on resource r with the bits b0 and b1 to what was sent in the window of n; they are added
// to the account, which a refusal leaves as it was.
pub fn credit(
    s: Settings,
    n: u16,
    sent: &SentWindow,
    r: Resource,
    b0: u16,
    b1: u16,
    account: &mut Account,
) -> Result<u32, Refusal>
    ensures { credited_as result account.new ≡ credit_of s n sent.now r.0 b0 b1 account.old }
{
    let window = SentIn {
        settings: s,
        n,
        sent,
    };
    let told = window.check()?;
    check_charge(window, account)?;
    let reading = station::read(s, n, told, r, b0, b1);
    let octets = credited_octets(window, reading)?;
    account.add(octets)?;
    Ok(octets)
}
