// What a handset hears, its refusals, and what a reply sees of it (document 01, "What a handset hears"; document 02, U1).
#![tactic(auto)]

mod checks;
mod kind;

ghost use Rattle.std.specs.Prelude.{◌-◌, ◌≡◌, ◌≤◌, cond, eqb, get_or};
ghost use Rattle.heard.specs.Heard.{is_data, view_of};
ghost use Rattle.heard.specs.Memory.{first_failed, second_failed, heard_in, ks_in, none, sees_block, sees_pdcch, view_in, views_in};
ghost use Rattle.heard.specs.declared.View.TheVariants.{Unheard};

pub use checks::check_heard;
use frame::Settings;
pub use kind::{SlotKind, UnknownKind};
use resource::Cce;

// A grant: the blocks it carries, which of them decoded, its first CCE and its DAI, as raw numbers. It has a `ScheduledBlock`'s three
// fields, and a `Control` the two of `Results`, and no such struct inside: each of some 30 lines of definitions, proofs and runs that read
// a field would name two, and nothing takes the three alone.
#[derive(Clone, Copy, Debug, PartialEq, Eq)]
pub struct Grant {
    pub blocks: u16,
    pub first: bool,
    pub second: bool,
    pub cce: Cce,
    pub dai: u16,
}

// A scheduled block, which comes with no PDCCH: the blocks it carries and which of them decoded. It has no CCE and no DAI.
#[derive(Clone, Copy, Debug, PartialEq, Eq)]
pub struct ScheduledBlock {
    pub blocks: u16,
    pub first: bool,
    pub second: bool,
}

// A PDCCH that releases the schedule: its first CCE and its DAI.
#[derive(Clone, Copy, Debug, PartialEq, Eq)]
pub struct Release {
    pub cce: Cce,
    pub dai: u16,
}

// What a subframe gives the handset.
#[derive(Clone, Copy, Debug, PartialEq, Eq)]
pub enum Heard {
    Nothing,
    Granted(Grant),
    Scheduled(ScheduledBlock),
    Released(Release),
}

// A PDCCH as a reply sees it: a sole block's result already stands for both blocks.
#[derive(Clone, Copy, Debug, PartialEq, Eq)]
pub struct Control {
    pub cce: Cce,
    pub dai: u16,
    pub first: bool,
    pub second: bool,
}

// A scheduled block as a reply sees it; a sole block's result stands for both here too.
#[derive(Clone, Copy, Debug, PartialEq, Eq)]
pub struct Results {
    pub first: bool,
    pub second: bool,
}

// What a reply sees of a subframe. A release is a PDCCH that decoded everything.
#[derive(Clone, Copy, Debug, PartialEq, Eq)]
pub enum View {
    Unheard,
    Pdcch(Control),
    Block(Results),
}

// A remembered subframe, four bytes: kind (0 nothing, 1 grant, 2 scheduled block, 3 release), first CCE, DAI, and results (bit 0 the
// first block decoded, bit 1 the second, bit 2 two blocks carried). A scheduled block has no CCE and no DAI, a release no results. The
// kind is a byte and no `SlotKind`, since a C caller lends the slots and may set it to anything. The default is a subframe that heard
// nothing.
#[repr(C)]
#[derive(Clone, Copy, Debug, Default, PartialEq, Eq)]
pub struct Slot {
    pub kind: u8,
    pub cce: u8,
    pub dai: u8,
    pub results: u8,
}

// What a reply sees of a remembered subframe, by tests with no branch on its kind, for speed.
impl Slot {
    // A PDCCH was heard.
    #[tactic(auto, using(crate::proofs::Remembered::pdcch_seen))]
    pub fn heard_pdcch(self) -> bool
        ensures { result ≡ sees_pdcch (view_in self) }
    {
        (self.kind == SlotKind::Grant as u8) | (self.kind == SlotKind::Release as u8)
    }

    // A scheduled block was heard.
    #[tactic(auto, using(crate::proofs::Remembered::block_seen))]
    pub fn heard_block(self) -> bool
        ensures { result ≡ sees_block (view_in self) }
    {
        self.kind == SlotKind::Block as u8
    }

    // A grant or a scheduled block was heard, which have results.
    #[tactic(auto, using(crate::proofs::Remembered::data_heard))]
    fn heard_data(self) -> bool
        ensures { result ≡ is_data (heard_in self) }
    {
        (self.kind == SlotKind::Grant as u8) | (self.kind == SlotKind::Block as u8)
    }

    // The first block was heard and did not decode.
    #[tactic(auto, using(crate::proofs::Remembered::first_fails))]
    pub fn first_failed(self) -> bool
        ensures { result ≡ first_failed (view_in self) }
    {
        let decoded = self.results % 2 == 1;
        self.heard_data() & !decoded
    }

    // The second block was heard and did not decode; a sole block's result stands for both.
    pub fn second_failed(self) -> bool
        ensures { result ≡ second_failed (view_in self) }
    {
        let first = self.results % 2 == 1;
        let second = self.results / 2 % 2 == 1;
        let two = self.results / 4 % 2 == 1;
        let decoded = if two { second } else { first };
        self.heard_data() & !decoded
    }
}

// What a remembered subframe heard, by its kind; nothing where there is no such kind.
impl From<Slot> for Heard {
    ghost from_gives = { λ t x. x ≡ heard_in t };

    #[tactic(auto, using(frame::proofs::Causes::decided, crate::proofs::Remembered::cce_is), unfolding(crate::specs::Memory::heard_in))]
    fn from(t: Slot) -> Heard {
        let blocks = if t.results / 4 % 2 == 1 { 2 } else { 1 };
        let first = t.results % 2 == 1;
        let second = t.results / 2 % 2 == 1;
        let cce = Cce::new(t.cce.into());
        let dai = t.dai.into();
        match SlotKind::try_from(t.kind) {
            Ok(SlotKind::Grant) => Heard::Granted(Grant {
                blocks,
                first,
                second,
                cce,
                dai,
            }),
            Ok(SlotKind::Block) => Heard::Scheduled(ScheduledBlock {
                blocks,
                first,
                second,
            }),
            Ok(SlotKind::Release) => Heard::Released(Release { cce, dai }),
            Ok(SlotKind::Nothing) | Err(_) => Heard::Nothing,
        }
    }
}

// The second block's result as a reply sees it: a sole block's result stands for both.
fn second_result(blocks: u16, first: bool, second: bool) -> bool
    ensures { result ≡ cond (eqb blocks 2) second first }
{
    if blocks == 2 { second } else { first }
}

// What a reply sees of what was heard.
impl From<Heard> for View {
    ghost from_gives = { λ x v. v ≡ view_of x };

    #[tactic(auto, unfolding(crate::specs::Heard::view_of))]
    fn from(x: Heard) -> View {
        match x {
            Heard::Nothing => View::Unheard,
            Heard::Granted(g) => View::Pdcch(Control {
                cce: g.cce,
                dai: g.dai,
                first: g.first,
                second: second_result(g.blocks, g.first, g.second),
            }),
            Heard::Scheduled(b) => View::Block(Results {
                first: b.first,
                second: second_result(b.blocks, b.first, b.second),
            }),
            Heard::Released(p) => View::Pdcch(Control {
                cce: p.cce,
                dai: p.dai,
                first: true,
                second: true,
            }),
        }
    }
}

// What a handset remembers before subframe n: its settings and its slots, the newest of which comes first and was heard in the subframe
// before n.
#[derive(Clone, Copy)]
pub struct Memory<'a> {
    pub settings: &'a Settings,
    pub n: u16,
    pub past: &'a [Slot],
}

impl Memory<'_> {
    // K of the window of n; for itself, as `frame::Window` says.
    pub fn ks(self) -> &'static [u16]
        ensures { result.now ≡ ks_in self.entry }
    {
        frame::window_of(self.settings.config, self.n)
    }

    // The slot of the subframe k before n; before the oldest slot, and in n itself, one that heard nothing.
    pub fn slot_ago(self, k: u16) -> Slot
        ensures before { 1 ≤ k → result ≡ get_or self.entry.past.now (k - 1) none }
        ensures none_yet { k ≡ 0 → result ≡ none }
    {
        // (0 becomes more than any length)
        let ago = usize::from(k).wrapping_sub(1);
        self.past.get(ago).copied().unwrap_or_default()
    }

    // What a reply sees of the subframe k before n; before the oldest slot nothing was heard, and in n itself nothing yet.
    #[tactic(auto, unfolding(crate::specs::Heard::view_of, crate::specs::Memory::heard_in, crate::specs::Memory::view_ago, crate::specs::Memory::view_in))]
    pub fn view_ago(self, k: u16) -> View
        ensures before { 1 ≤ k → result ≡ views_in self.entry k }
        ensures none_yet { k ≡ 0 → result ≡ Unheard }
    {
        View::from(Heard::from(self.slot_ago(k)))
    }
}
