// The records of a trace (document 02, U3), and a reader that keeps a lent trace and the number of the next record together.
#![tactic(auto)]

mod accepted;
mod records;

ghost use Rattle.std.specs.Prelude.{◌≡◌, ◌<◌, IfOk, IfSome};
ghost use Rattle.frame.specs.Refusals.{numbered};
ghost use Rattle.reader.specs.Reading.{following_of};
ghost use Rattle.reader.specs.Record.{record_of};

pub use accepted::{Records, Trace};
use frame::Refusal;
use heard::Slot;
pub use records::{heard_at, record_at, used_of};

// A lent trace and the number of the next record, from 0.
#[derive(Clone, Copy, Debug)]
pub struct Reader<'a> {
    pub trace: &'a [u8],
    pub next: usize,
}

impl<'a> Reader<'a> {
    // A reader at the first record.
    pub fn new(trace: &'a [u8]) -> Reader<'a>
        ensures { (result.trace ≡ trace.entry) × (result.next ≡ 0) }
    {
        Reader { trace, next: 0 }
    }

    // The next record, for any bytes and any number: 21, 22, the record, every field and bit that its kind does not use being 0, or
    // none at the end. No trace has more records than a number of 16 bits counts.
    pub fn read(&self) -> Result<Option<Slot>, Refusal>
        ensures value { numbered result ≡ record_of self.now.trace.now self.now.next }
        ensures few { IfOk result (λ found. IfSome found (λ _. self.now.next < 65536)) }
    {
        record_at(self.trace, self.next)
    }

    // Goes to the record after. The greatest number stays, which is past the records of every trace.
    #[tactic(auto, unfolding(crate::specs::Reading::following_of))]
    pub fn advance(&mut self)
        ensures { (self.new.trace ≡ self.old.trace) × (self.new.next ≡ following_of self.old.next) }
    {
        self.next = self.next.saturating_add(1);
    }
}

// The records from the next one on, up to the end or the first that is refused: `read` tells these two apart.
impl Iterator for Reader<'_> {
    ghost use Rattle.std.specs.Iterator.{item_count};
    ghost use Rattle.reader.specs.Reading.{records_left, Gives};

    type Item = Slot;

    ghost next_gives = { Gives };

    ghost remaining = { item_count records_left };

    fn next(&mut self) -> Option<Slot> {
        let record = self.read().ok().flatten()?;
        self.advance();
        Some(record)
    }
}
