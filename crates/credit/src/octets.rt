// The octets of the blocks that a reading credits.
ghost use Rattle.std.specs.Prelude.{◌≡◌, cond, ◌+◌, ◌/◌, ◌≤◌};
ghost use Rattle.frame.specs.Refusals.{numbered};
ghost use Rattle.sizes.specs.Table.{block_size, table_column};
ghost use Rattle.credit.specs.Coded.{own_blocks, block_in};
ghost use Rattle.credit.specs.Credit.{octets_of, octets_where};

use confirming::{Blocks, Positions, Sent, SentIn};
use frame::Refusal;
use station::Reading;

// Of the confirmed blocks those whose own bit is ACK.
#[tactic(auto, using(frame::proofs::Causes::decided), unfolding(crate::specs::Coded::own_blocks))]
pub fn own_blocks(reading: Result<Reading, Refusal>, confirmed: Blocks) -> Blocks
    ensures { result ≡ own_blocks (numbered reading) confirmed }
{
    match reading {
        Ok(Reading::Bundled(_, b0, b1)) => Blocks {
            first: if b0 == 1 {
                confirmed.first
            } else {
                Positions::default()
            },
            second: if b1 == 1 {
                confirmed.second
            } else {
                Positions::default()
            },
        },
        Ok(Reading::Multiplexed(_, _)) => confirmed,
        Err(_) => Blocks::default(),
    }
}

// The octets of a block with this size index and width, in a special subframe or not; none where it is not credited.
#[tactic(auto, using(crate::proofs::Sums::few_octets))]
fn octets_if(credited: bool, itbs: u16, nprb: u16, special: bool) -> u32
    ensures value { result ≡ cond credited (block_size itbs (table_column nprb special) / 8) 0 }
    ensures most { result ≤ 9422 }
{
    if credited {
        sizes::block_size(itbs, sizes::column(nprb, special)) / 8
    } else {
        0
    }
}

// The octets of those blocks of a record that are among these, at position m, sent in subframe d.
#[tactic(auto, unfolding(crate::specs::Credit::octets_of))]
fn octets_at(blocks: Blocks, m: usize, config: u16, d: u16, x: &Sent) -> u32
    ensures value { result ≡ cond (block_in blocks m 0) (octets_of config d x.now 0) 0 + cond (block_in blocks m 1) (octets_of config d x.now 1) 0 }
    ensures most { result ≤ 18844 }
{
    let special = frame::is_special(config, d);
    let first = octets_if(blocks.first.contains(m), x.itbs0, x.nprb0, special);
    let second = octets_if(blocks.second.contains(m), x.itbs1, x.nprb1, special);
    first + second
}

// The octets of these blocks of the window.
pub fn octets_of(window: SentIn, blocks: Blocks) -> u32
    ensures { result ≡ octets_where window.entry.settings.config window.entry.n window.entry.sent.now (block_in blocks) }
{
    let SentIn { settings, n, .. } = window;
    window
        .subframes()
        .enumerate()
        .map(|(m, (k, x))| octets_at(blocks, m, settings.config, frame::before(n, *k), x))
        .sum()
}
