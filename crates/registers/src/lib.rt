// The handset as a register block (document 02, U13): 16 lent bytes, in which a command is written and flags and the last reply are read.
// specs/Call.antt has what a call makes of any bytes and any handset, specs/Exactly.antt the same in words, specs/Machine.antt the running
// handset with its flags beside it, and specs/Lists.antt that the two agree along every list of commands.
#![tactic(auto)]

mod flags;

ghost use Rattle.std.specs.Prelude.{◌≡◌, IfErr};
ghost use Rattle.frame.specs.Refusals.{number_of, numbered};
ghost use Rattle.reader.specs.Record.{slot_at};
ghost use Rattle.registers.specs.Call.{refused_block, cleared_block, shown_block, window_brought, handset_fed, obeyed, block_or_refusal, line_of, told_by, command_of};

pub use flags::Flags;
use frame::Refusal;
use handset::Handset;
use heard::{Heard, Slot};
use replaying::WINDOW;

// The bytes of a block, and where its parts stand: a record as in a trace, the command, the flags, the interrupt mask, the number of the
// last refusal, and the last reply as in a replay.
pub const BLOCK: usize = 16;

const COMMAND: usize = 4;

const FLAGS: usize = 5;

const MASK: usize = 6;

const REFUSAL: usize = 7;

const REPLY: usize = 8;

// What a command comes to beside the block and the handset: that it was done or its refusal, and whether the interrupt line is high.
#[derive(Clone, Copy, Debug, PartialEq, Eq)]
pub struct Commanded {
    pub done: Result<(), Refusal>,
    pub line: bool,
}

// The record in bytes 0 to 3.
#[tactic(auto, unfolding(reader::specs::Record::slot_at))]
fn slot_of(block: &[u8; BLOCK]) -> Slot
    ensures { result ≡ slot_at block.now 0 }
{
    Slot {
        kind: block[0],
        cce: block[1],
        dai: block[2],
        results: block[3],
    }
}

// Shows that the command was refused.
fn refuse(block: &mut [u8; BLOCK], refusal: Refusal)
    ensures { block.new ≡ refused_block block.old (number_of refusal) }
{
    block[FLAGS] = Flags::new(block[FLAGS]).with_refusal().put(block[FLAGS]);
    block[REFUSAL] = refusal as u8;
}

// Drops the flags that byte 0 has, which is no kind here.
fn clear(block: &mut [u8; BLOCK])
    ensures { block.new ≡ cleared_block block.old }
{
    let dropped = Flags::new(block[0]);
    block[FLAGS] = Flags::new(block[FLAGS]).without(dropped).put(block[FLAGS]);
}

// Shows a reply.
#[tactic(auto, using(replaying::proofs::Putting::part_put))]
fn show(block: &mut [u8; BLOCK], reply: [u8; WINDOW])
    ensures { block.new ≡ shown_block block.old reply }
{
    block[FLAGS] = Flags::new(block[FLAGS]).with_reply().put(block[FLAGS]);
    block[REPLY..].copy_from_slice(&reply);
}

// Feeds what the record brings: 22 for a kind over 3, then the refusals of the feed, or the window's bytes.
#[tactic(auto, unfolding(crate::specs::Call::window_brought, crate::specs::Call::handset_fed, reader::specs::Record::brought_by))]
fn feed(block: &[u8; BLOCK], handset: &mut Handset) -> Result<Option<[u8; WINDOW]>, Refusal>
    ensures window { numbered result ≡ window_brought block.now handset.old }
    ensures after { handset.new ≡ handset_fed block.now handset.old }
{
    let record = reader::used_of(slot_of(block))?;
    replaying::feed_window(handset, Heard::from(record))
}

// Does what the command says: 0 is none, 1 feed, 2 clear. A refusal leaves block and handset as they were.
#[tactic(auto, unfolding(crate::specs::Call::obeyed))]
fn obey(block: &mut [u8; BLOCK], handset: &mut Handset) -> Result<(), Refusal>
    ensures block { block_or_refusal result block.new ≡ (obeyed block.old handset.old).block }
    ensures kept { IfErr result (λ _. block.new ≡ block.old) }
    ensures after { handset.new ≡ (obeyed block.old handset.old).handset }
{
    match block[COMMAND] {
        0 => {}
        1 => {
            if let Some(reply) = feed(block, handset)? {
                show(block, reply);
            }
        }
        2 => clear(block),
        _ => return Err(Refusal::Command),
    }
    Ok(())
}

// A flag and its mask bit are both set.
fn line_of(block: &[u8; BLOCK]) -> bool
    ensures { result ≡ line_of block.now }
{
    Flags::new(block[FLAGS]).raise(Flags::new(block[MASK]))
}

// Obeys the command in any block and handset. A block that has not 16 bytes is refused before all else and stays untouched; any other
// refusal is shown in the block. The line is judged after the command.
#[tactic(auto, unfolding(crate::specs::Call::command_of))]
pub fn command(block: &mut [u8], handset: &mut Handset) -> Commanded
    ensures told { told_by result handset.new ≡ (command_of block.old handset.old).told }
    ensures block_after { block.new ≡ (command_of block.old handset.old).block }
{
    let Some(block) = block.as_mut_array() else {
        return Commanded {
            done: Err(Refusal::RegisterBlock),
            line: false,
        };
    };
    let done = obey(block, handset);
    if let Err(refusal) = done {
        refuse(block, refusal);
    }
    Commanded {
        done,
        line: line_of(block),
    }
}
