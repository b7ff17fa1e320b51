// A scheduler against the radio: whether losses can hide in a window, by its size, the grants in it and the most that are lost (document
// 02, U12). specs/Game.antt has the game over all its plays, specs/Decided.antt what the answer means and when the radio wins.
#![tactic(auto)]

ghost use Rattle.std.specs.Prelude.{◌≡◌};
ghost use Rattle.frame.specs.Refusals.{numbered, refusal_in};
ghost use Rattle.playing.specs.Game.{game_refusal, game_of};

use frame::Refusal;

// 27: a size that is not 1 to 9, more grants than subframes, or more than 9 losses.
#[tactic(auto, unfolding(crate::specs::Game::game_refusal))]
fn check(size: u16, grants: u16, losses: u16) -> Result<(), Refusal>
    ensures { refusal_in result ≡ game_refusal size grants losses }
{
    if !(1..=9).contains(&size) || size < grants || 9 < losses {
        return Err(Refusal::Game);
    }
    Ok(())
}

// True if the radio can force that a bundled reply is sent though a grant before the last heard was lost; false if the scheduler can
// prevent it. No play is gone through: for such a reply four grants or eight must be lost before the last heard one, and with five grants
// it is enough to lose the first four.
#[tactic(auto, using(crate::proofs::Tree::many_granted, crate::proofs::Tree::few_granted, frame::proofs::Refused::value_refused), unfolding(crate::specs::Game::game_of))]
pub fn radio_wins(size: u16, grants: u16, losses: u16) -> Result<bool, Refusal>
    ensures { numbered result ≡ game_of size grants losses }
{
    check(size, grants, losses)?;
    Ok(5 <= grants && 4 <= losses)
}
