// Who can force the outcome of a game.
ghost use Rattle.std.specs.Prelude.{◌≡◌};
ghost use Rattle.frame.specs.Refusals.{numbered};
ghost use Rattle.numbers.specs.Answers.{game_answer};

use frame::Refusal;

// 1 where the radio can force it, 0 where the scheduler can prevent it, and 0 where refused.
#[repr(C)]
#[derive(Clone, Copy, Default)]
pub struct GameAnswer {
    pub refusal: u16,
    pub radio: u16,
}

// Whether the radio can force it.
impl From<Result<bool, Refusal>> for GameAnswer {
    ghost from_gives = { λ x a. a ≡ game_answer (numbered x) };

    #[tactic(auto, using(frame::proofs::Bools::cast_bit))]
    fn from(x: Result<bool, Refusal>) -> GameAnswer {
        match x {
            Ok(forced) => GameAnswer {
                refusal: 0,
                radio: forced as u16,
            },
            Err(refusal) => GameAnswer {
                refusal: refusal.into(),
                ..GameAnswer::default()
            },
        }
    }
}
