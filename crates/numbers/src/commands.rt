// What a command to a register block comes to.
ghost use Rattle.std.specs.Prelude.{◌≡◌};
ghost use Rattle.registers.specs.Call.{told_by};
ghost use Rattle.numbers.specs.Answers.{command_answer};

use handset::Handset;
use registers::Commanded;

// Line 1 where the interrupt line is high, 0 where it is low. `handset` is the handset after the command.
#[repr(C)]
#[derive(Clone, Copy)]
pub struct CommandAnswer {
    pub refusal: u16,
    pub line: u16,
    pub handset: Handset,
}

// What a command comes to, and the handset after it.
impl From<(Commanded, Handset)> for CommandAnswer {
    ghost from_gives = { λ x a. a ≡ command_answer (told_by x.0 x.1) };

    #[tactic(auto, using(frame::proofs::Bools::cast_bit))]
    fn from((commanded, handset): (Commanded, Handset)) -> CommandAnswer {
        CommandAnswer {
            refusal: commanded.done.map_or_else(u16::from, |()| 0),
            line: commanded.line as u16,
            handset,
        }
    }
}
