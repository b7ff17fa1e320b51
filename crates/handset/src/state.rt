// Refusal 8: what a lent state must be (document 01, "Causes and their numbers"; document 02, U1, U2, U8 and
// U9).
ghost use Rattle.std.specs.Prelude.{ℕ, ◌+◌, ◌++◌, ◌≡◌, ◌≤◌, ◌/◌, ◌%◌, cond, eqb};
ghost use Rattle.frame.specs.Layout.{letter_of};
ghost use Rattle.frame.specs.Coded.{letter_byte};
ghost use Rattle.frame.specs.Refusals.{refusal_in};
ghost use Rattle.frame.specs.Settings.{has_scheduled, settings_refusal};
ghost use Rattle.frame.specs.Special.{no_pdsch};
ghost use Rattle.resource.specs.Formula.{edge};
ghost use Rattle.handset.specs.Checked.{slot_valid, padding, blocks_apart};
ghost use Rattle.handset.specs.Sound.{all_sound, state_refusal};

use crate::Handset;
use frame::{Refusal, Settings};
use heard::{Slot, SlotKind};

// What a cell's settings, which are accepted, allow a remembered subframe, made once for all of them.
#[derive(Clone, Copy)]
struct Limits {
    settings: Settings,
    cces: u32,
    one_block: bool,
    scheduled: bool,
    short: bool,
    ghost accepted: { settings_refusal settings ≡ 0 },
    ghost cces_are: { cces ≡ edge settings.nrb 4 },
    ghost one_is: { one_block ≡ eqb settings.blocks 1 },
    ghost scheduled_is: { scheduled ≡ has_scheduled settings },
    ghost short_is: { short ≡ no_pdsch settings.prefix settings.special },
}

impl Limits {
    #[tactic(auto, using(crate::proofs::Together::cces_accepted))]
    fn of(settings: Settings) -> Limits
        requires { settings_refusal settings ≡ 0 }
        ensures { result.settings ≡ settings }
    {
        Limits {
            settings,
            cces: u32::from(resource::cces_of(settings.nrb)),
            one_block: settings.blocks == 1,
            scheduled: settings.has_scheduled(),
            short: frame::no_pdsch(settings.prefix, settings.special),
        }
    }

    // 1 where a slot's number has the bit for two blocks and one block is the most.
    fn two_in(self, word: u32) -> u32
        ensures { result ≡ cond self.one_block (word / 67108864 % 2) 0 }
    {
        if self.one_block {
            word / 0x4000000 % 2
        } else {
            0
        }
    }
}

// The greatest kind that a subframe of this letter may have: nothing is heard in an uplink one.
fn kinds_of(letter: u8) -> u32
    ensures { result ≡ cond (eqb letter 85) 0 3 }
{
    if letter == b'U' { 0 } else { 3 }
}

// A slot as one number, its first byte lowest: so the compiler tests four slots at a time.
fn word_of(t: Slot) -> u32
    ensures kind { result % 256 ≡ t.kind }
    ensures cce { result / 256 % 256 ≡ t.cce }
    ensures dai { result / 65536 % 256 ≡ t.dai }
    ensures two { result / 67108864 % 2 ≡ t.results / 4 % 2 }
{
    u32::from_le_bytes([t.kind, t.cce, t.dai, t.results])
}

// A remembered subframe is of a kind that there is, and what it heard is valid by itself in a subframe of this letter. It is
// `check_heard` of that, with no branch on what was heard, for speed.
#[tactic(auto, using(crate::proofs::Together::valid_coded))]
fn is_valid(limits: Limits, letter: u8, t: Slot) -> bool
    ensures { (n : ℕ) → letter ≡ letter_byte (letter_of limits.settings.config n) → result ≡ slot_valid limits.settings n t }
{
    let word = word_of(t);
    let kind = word % 0x100;
    let cce = word / 0x100 % 0x100;
    let dai = word / 0x10000 % 0x100;
    let pdcch = (cce < limits.cces) & (0 < dai) & (dai < 5);
    let two = limits.two_in(word) == 1;
    let data = !two & !((letter == b'S') & limits.short);
    let is_pdcch = kind % 2 == 1;
    let is_data = (kind + 1) / 2 % 2 == 1;
    (kind <= kinds_of(letter))
        & (pdcch | !is_pdcch)
        & (data | !is_data)
        & (limits.scheduled | (kind != 2))
}

// The slots and three of nothing behind them: sixteen are tested four at a time, where the compiler tests 13 one by one. They are put there
// one by one: of a slice copied at once it would make a copy in memory.
fn padded(past: &[Slot; 13]) -> [Slot; 16]
    ensures { result ≡ past.now ++ padding }
{
    let mut slots = [Slot::default(); 16];
    for (i, &t) in past.iter().enumerate() {
        slots[i] = t;
    }
    slots
}

// The subframe after n; after 9 comes 0.
fn subframe_after(n: u16) -> u16
    requires { n ≤ 9 }
    ensures { result ≡ (n + 1) % 10 }
{
    if n == 9 {
        return 0;
    }
    n + 1
}

impl Handset {
    // No remembered scheduled block is a second one in its window. From the oldest on each block takes its window. A window goes by the time
    // when it is answered: slot i's subframe is i + 1 before the one expected, and its answer so far after it as `distance_of` says. No branch
    // on the kinds, for speed.
    #[tactic(auto, using(frame::proofs::Distances::distance_most))]
    fn blocks_apart(&self) -> bool
        requires { self.now.next ≤ 9 }
        ensures { result ≡ blocks_apart self.now.settings.config self.now.next self.now.past }
    {
        let mut taken = [false; 32];
        let mut second = false;
        let mut n = frame::before(self.next, 13);
        for k in 0..13 {
            let i = 12 - k;
            let block = self.past[i].kind == SlotKind::Block as u8;
            let window = usize::from(frame::distance_of(self.settings.config, n)) + 13 - i;
            second = second | (block & taken[window]);
            taken[window] = taken[window] | block;
            n = subframe_after(n);
        }
        !second
    }

    // Every remembered subframe is sound in the subframe it was fed in: the newest in the one before that which is expected, and so on
    // back. Each is valid by itself, and no scheduled block is a second one in its window: only a state that has one looks for another.
    fn all_sound(&self) -> bool
        requires next { self.now.next ≤ 9 }
        requires settings { settings_refusal self.now.settings ≡ 0 }
        ensures { result ≡ all_sound self.now.settings self.now.next self.now.past }
    {
        let limits = Limits::of(self.settings);
        let letters = frame::letters_before(self.settings.config, self.next);
        let slots = padded(&self.past);
        let mut valid = true;
        let mut block = false;
        for (i, &t) in slots.iter().enumerate() {
            valid = valid & is_valid(limits, letters[i], t);
            block = block | (t.kind == SlotKind::Block as u8);
        }
        valid && (!block || self.blocks_apart())
    }

    // 8 where the state fails 1 to 6, 17, 19 or 24, expects a subframe over 9, or remembers a mode that fails 5 or 24, or what fails
    // 9 to 12, 18 or 20.
    #[tactic(auto, using(frame::proofs::Refused::refused_test), unfolding(crate::specs::Sound::state_refusal, crate::specs::Sound::state_sound))]
    pub fn check_state(&self) -> Result<(), Refusal>
        ensures { refusal_in result ≡ state_refusal self.now }
    {
        if self.settings.check().is_err() || 9 < self.next {
            return Err(Refusal::State);
        }
        if self.modes_sound() & self.all_sound() {
            return Ok(());
        }
        Err(Refusal::State)
    }
}
