// What a call with a sent window refuses before it looks at the reply (document 01, "Causes and their numbers"; document 02, U1, U2
// and U10).
ghost use Rattle.std.specs.Prelude.{ℕ, ◌≡◌, cond, map, eqb, length, ltb};
ghost use Rattle.frame.specs.Coded.{letter_byte};
ghost use Rattle.frame.specs.Layout.{letter_of};
ghost use Rattle.frame.specs.Letters.{letters_before};
ghost use Rattle.frame.specs.Refusals.{refusal_in, numbered};
ghost use Rattle.heard.specs.Heard.{heard_refusal};
ghost use Rattle.confirmation.specs.Sent.{as_heard};
ghost use Rattle.confirming.specs.Blocks.{checked_of};
ghost use Rattle.confirming.specs.Coded.{k_in, records_in, send_in, valid_ago, all_valid};
ghost use Rattle.confirming.specs.Records.{send_of};
ghost use Rattle.confirming.specs.Refusals.{rank_of, lowest, refusal_ago, blocks_sent, call_refusal};

use crate::{Sent, SentIn};
use frame::{Refusal, Settings, Window, before};
use heard::Heard;

// The place of a refusal in the order in which they are given; no refusal comes last. It is not the order of their numbers, and so no
// `Ord`.
#[tactic(auto, unfolding(crate::specs::Refusals::rank_of))]
fn rank_of(checked: Result<(), Refusal>) -> u16
    ensures { result ≡ rank_of (refusal_in checked) }
{
    match checked {
        Err(Refusal::Uplink) => 1,
        Err(Refusal::Short) => 2,
        Err(Refusal::Carried) => 3,
        Err(Refusal::Cce) => 4,
        Err(Refusal::Dai) => 5,
        Err(Refusal::Scheduled) => 6,
        _ => 7,
    }
}

// What a record says is valid by itself in a subframe of this letter. It is `check_heard` of that, with no branch on what was sent, for
// speed.
#[tactic(auto, using(crate::proofs::Together::valid_coded))]
fn is_valid(s: Settings, letter: u8, x: &Sent) -> bool
    ensures { (d : ℕ) → letter ≡ letter_byte (letter_of s.config d) → result ≡ eqb (heard_refusal s d (as_heard (send_of x.now))) 0 }
{
    let is_pdcch = x.signalled != 0;
    let is_data = x.blocks != 0;
    let place = (letter != b'U') | !(is_pdcch | is_data);
    let short = (letter == b'S') & frame::no_pdsch(s.prefix, s.special);
    let data = (x.blocks <= s.blocks) & !short;
    let pdcch = resource::is_cce(s.nrb, x.cce) & (0 < x.dai) & (x.dai < 5);
    let resource = s.has_scheduled() | is_pdcch;
    place & (data | !is_data) & (pdcch | !is_pdcch) & (resource | !is_data)
}

// The same of what was sent k before a subframe, by the letters of the sixteen before it.
#[tactic(auto, using(crate::proofs::Together::ago_before, crate::proofs::Together::ago_within, crate::proofs::Together::ago_beyond))]
fn is_valid_ago(s: Settings, letters: &[u8; 16], k: u16, x: &Sent) -> bool
    ensures { (n : ℕ) → letters.now ≡ letters_before s.config n → result ≡ valid_ago s n (k, x.now) }
{
    if k == 0 || 16 < k {
        return false;
    }
    is_valid(s, letters[usize::from(k) - 1], x)
}

impl SentIn<'_> {
    // Each record is valid by itself.
    fn all_valid(self) -> bool
        ensures value { result ≡ all_valid self.entry }
        ensures size { length (records_in self.entry) ≡ length (k_in self.entry) }
    {
        let SentIn { settings, n, .. } = self;
        let letters = frame::letters_before(settings.config, n);
        self.subframes()
            .all(|(k, x)| is_valid_ago(settings, &letters, *k, x))
    }

    // The refusal that comes first of what was sent, over all positions. It is looked for only where some record is refused, for speed.
    #[tactic(auto, using(crate::proofs::Together::none_refused))]
    fn check_records(self) -> Result<(), Refusal>
        ensures { refusal_in result ≡ lowest (map (refusal_ago self.entry.settings self.entry.n (send_in self.entry)) (k_in self.entry)) }
    {
        if self.all_valid() {
            return Ok(());
        }
        self.first_refused()
    }

    // The same by a search through the refusals of all records.
    fn first_refused(self) -> Result<(), Refusal>
        ensures { refusal_in result ≡ lowest (map (refusal_ago self.entry.settings self.entry.n (send_in self.entry)) (k_in self.entry)) }
    {
        self.subframes()
            .map(|(k, x)| heard::check_heard(self.settings, before(self.n, *k), Heard::from(*x)))
            .min_by_key(|checked| rank_of(*checked))
            .unwrap_or(Ok(()))
    }

    // A second scheduled block in one window: 18.
    #[tactic(auto, using(frame::proofs::Causes::decided))]
    fn check_second(self) -> Result<(), Refusal>
        ensures { refusal_in result ≡ cond (ltb 1 (blocks_sent (send_in self.entry) (k_in self.entry))) 18 0 }
    {
        if 1 < self.scheduled_blocks() {
            return Err(Refusal::Scheduled);
        }
        Ok(())
    }

    // The settings and the subframe: 1 to 6, 17, 19, 24 and 7; then what was sent: 20, 10, 11, 12 and 18. The tested window goes no
    // further: `station::read`, which a buyer calls too, tests for itself.
    #[tactic(auto, using(frame::proofs::Refused::first_refused, frame::proofs::Refused::first_accepted), unfolding(crate::specs::Refusals::call_refusal, crate::specs::Refusals::sent_refusal))]
    fn check_call(self) -> Result<(), Refusal>
        ensures { refusal_in result ≡ call_refusal self.entry.settings self.entry.n self.entry.sent.now }
    {
        Window::new(self.settings, self.n)?;
        self.check_records()?;
        self.check_second()
    }

    // What is refused before the reply is looked at, else the position of the scheduled block that was sent, if one was.
    #[tactic(auto, using(frame::proofs::Refused::value_refused, frame::proofs::Refused::value_accepted), unfolding(crate::specs::Blocks::checked_of))]
    pub fn check(self) -> Result<Option<u16>, Refusal>
        ensures { numbered result ≡ checked_of self.entry.settings self.entry.n self.entry.sent.now }
    {
        self.check_call()?;
        Ok(self.told())
    }
}
