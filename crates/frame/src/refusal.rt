// Why a call refuses. Every crate of the engine answers with one of these; a C caller gets its number.
ghost use Rattle.frame.specs.Refusals.{IsNumber};

// The cause of a refusal, and its number. Where a call meets several, it answers the one that its definition names first.
#[derive(Clone, Copy, Debug, PartialEq, Eq)]
pub enum Refusal {
    // The settings.
    Configuration = 1,
    Bandwidth = 2,
    N1 = 3,
    Mode = 4,
    Multiplexing = 5,
    Blocks = 6,
    // The subframe has no window, or lies in none.
    Subframe = 7,
    // The state of a handset.
    State = 8,
    // What a subframe brings.
    Uplink = 9,
    Carried = 10,
    Cce = 11,
    Dai = 12,
    // A reply.
    Resource = 13,
    Bits = 14,
    // The claims of a cell.
    Scratch = 15,
    Claim = 16,
    // Scheduled blocks: their resource among the settings, and a block with no resource or a second one in its window.
    ScheduledResource = 17,
    Scheduled = 18,
    // Special subframes: among the settings, and one that is too short for data.
    Special = 19,
    Short = 20,
    // A trace and its output.
    TraceLength = 21,
    TraceParts = 22,
    Output = 23,
    // The antenna ports, among the settings.
    Ports = 24,
    // Accounts: a size, a price or the account itself; and its limit.
    SizeOrAccount = 25,
    Total = 26,
    // The game of a scheduler and the radio: its window's size, its grants or its losses.
    Game = 27,
    // The handset as a register block: its command, and a block that has not 16 bytes.
    Command = 28,
    RegisterBlock = 29,
}

// The number that a C caller gets.
impl From<Refusal> for u16 {
    ghost from_gives = { IsNumber };

    fn from(refusal: Refusal) -> u16 {
        refusal as u16
    }
}
