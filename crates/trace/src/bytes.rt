// What stands at a place of a trace: a byte, a number, the settings.
ghost use Rattle.std.specs.Prelude.{◌<◌, ◌^◌, ◌≡◌};
ghost use Rattle.trace.specs.Trace.{byte_at, number_at, settings_at};

use frame::Settings;

// Byte i; 0 past the end.
pub fn byte_at(trace: &[u8], i: usize) -> u8
    ensures { result ≡ byte_at trace.now i }
{
    trace.get(i).copied().unwrap_or(0)
}

// The number in the two bytes from i on.
#[tactic(auto, unfolding(crate::specs::Trace::number_at))]
pub(crate) fn number_at(trace: &[u8], i: usize) -> u16
    requires { i < 2 ^ 32 }
    ensures { result ≡ number_at trace.now i }
{
    u16::from_le_bytes([byte_at(trace, i), byte_at(trace, i + 1)])
}

// The settings whose ten bytes begin at `at`. A trace has one antenna port.
#[tactic(auto, unfolding(crate::specs::Trace::settings_at))]
pub fn settings_at(trace: &[u8], at: u16) -> Settings
    ensures { result ≡ settings_at trace.now at }
{
    let i = at as usize;
    Settings {
        config: u16::from(byte_at(trace, i)),
        nrb: u16::from(byte_at(trace, i + 1)),
        n1: number_at(trace, i + 6),
        mode: u16::from(byte_at(trace, i + 2)),
        blocks: u16::from(byte_at(trace, i + 3)),
        scheduled: number_at(trace, i + 8),
        prefix: u16::from(byte_at(trace, i + 5)),
        special: u16::from(byte_at(trace, i + 4)),
        ports: 1,
    }
}
