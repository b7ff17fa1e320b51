// The kinds of a remembered subframe.
ghost use Rattle.heard.specs.Kinds.{Decodes};

// What a remembered subframe heard, as the number that a slot has for it.
#[derive(Clone, Copy, Debug, PartialEq, Eq)]
pub enum SlotKind {
    Nothing = 0,
    Grant = 1,
    Block = 2,
    Release = 3,
}

// A byte that is the number of no kind.
#[derive(Clone, Copy, Debug, PartialEq, Eq)]
pub struct UnknownKind(pub u8);

impl TryFrom<u8> for SlotKind {
    type Error = UnknownKind;

    ghost try_from_gives = { Decodes };

    fn try_from(number: u8) -> Result<Self, UnknownKind> {
        match number {
            0 => Ok(SlotKind::Nothing),
            1 => Ok(SlotKind::Grant),
            2 => Ok(SlotKind::Block),
            3 => Ok(SlotKind::Release),
            _ => Err(UnknownKind(number)),
        }
    }
}
