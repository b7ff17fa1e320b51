// The flags of a register block (document 02, U13): bits 0 to 2 of byte 5, and of the bytes that a driver holds against them.
ghost use Rattle.std.specs.Prelude.{◌≡◌};
ghost use Rattle.registers.specs.Flags.{flags_in, flags_put, with_refusal, with_reply, without, raised};

// A reply is ready; a command was refused; a reply was overwritten unread.
#[derive(Clone, Copy, Debug, PartialEq, Eq)]
pub struct Flags {
    pub ready: bool,
    pub refused: bool,
    pub overwritten: bool,
}

impl Flags {
    // The flags in bits 0 to 2 of a byte.
    pub fn new(byte: u8) -> Flags
        ensures { result ≡ flags_in byte }
    {
        Flags {
            ready: byte % 2 == 1,
            refused: byte / 2 % 2 == 1,
            overwritten: byte / 4 % 2 == 1,
        }
    }

    // A byte with these in bits 0 to 2; its other bits stay.
    pub fn put(self, byte: u8) -> u8
        ensures { result ≡ flags_put byte self }
    {
        let ready = self.ready as u8;
        let refused = self.refused as u8;
        let overwritten = self.overwritten as u8;
        byte / 8 * 8 + ready + 2 * refused + 4 * overwritten
    }

    // After a refusal.
    pub fn with_refusal(self) -> Flags
        ensures { result ≡ with_refusal self }
    {
        Flags {
            refused: true,
            ..self
        }
    }

    // After a reply: one that was still ready is overwritten.
    pub fn with_reply(self) -> Flags
        ensures { result ≡ with_reply self }
    {
        Flags {
            ready: true,
            overwritten: self.overwritten | self.ready,
            ..self
        }
    }

    // Those that stay where these are dropped.
    pub fn without(self, dropped: Flags) -> Flags
        ensures { result ≡ without self dropped }
    {
        Flags {
            ready: self.ready & !dropped.ready,
            refused: self.refused & !dropped.refused,
            overwritten: self.overwritten & !dropped.overwritten,
        }
    }

    // Some flag and its mask bit are both set.
    pub fn raise(self, mask: Flags) -> bool
        ensures { result ≡ raised self mask }
    {
        (self.ready & mask.ready)
            | (self.refused & mask.refused)
            | (self.overwritten & mask.overwritten)
    }
}
