// The engine's C interface: one static library, libfeedback.a, with the header include/feedback.h. The papers' numbers are sixteen
// bits wide. An answer is a struct of numbers (`numbers`): the refusal, 0 for none, and the values, which are 0 where they say nothing.
#![tactic(auto)]

ghost use Rattle.std.specs.Prelude.{◌≡◌, length};
ghost use Rattle.account.specs.Account.{open_of};
ghost use Rattle.confirming.specs.Blocks.{confirmed_of};
ghost use Rattle.credit.specs.Credit.{credit_of};
ghost use Rattle.frame.specs.Distance.{answered_of};
ghost use Rattle.playing.specs.Game.{game_of};
ghost use Rattle.registers.specs.Call.{command_of};
ghost use Rattle.resource.specs.Calls.{inverse_of};
ghost use Rattle.resource.specs.Ports.{ports_of};
ghost use Rattle.station.specs.Readings.{read_of};
ghost use Rattle.claims.specs.Bits.{bit_checked_of, bit_scratch_of};
ghost use Rattle.claims.specs.Claims.{checked_of, scratch_of};
ghost use Rattle.numbers.specs.Answers.{window_answer, answered_answer, resource_answer, inverse_answer, told_position, reading_answer, confirmed_answer, opened_answer, credit_answer, claims_answer, made_answer, changed_answer, fed_answer, silence_answer, grant_of, block_of, release_of, replay_answer, replay_size_answer, record_answer, write_answer, game_answer, command_answer};
ghost use Rattle.handset.specs.Change.{change_of};
ghost use Rattle.handset.specs.Feed.{feed_of};
ghost use Rattle.handset.specs.Make.{make_of};
ghost use Rattle.heard.specs.declared.Heard.TheVariants.{Nothing};
ghost use Rattle.silence.specs.Cause.{explain_of};
ghost use Rattle.replaying.specs.Replay.{replay_of, output_of};
ghost use Rattle.sizing.specs.Size.{size_of};
ghost use Rattle.reader.specs.Record.{record_of};
ghost use Rattle.spelling.specs.Writing.{write_of, spelled_into};

use account::Account;
use confirming::SentWindow;
use frame::{Settings, Window};
use handset::Handset;
use heard::{Grant, Heard, Release, ScheduledBlock};
use numbers::{
    AnsweredAnswer, ChangedAnswer, ClaimsAnswer, CommandAnswer, ConfirmedAnswer, CreditAnswer,
    FedAnswer, GameAnswer, InverseAnswer, MadeAnswer, OpenedAnswer, ReadingAnswer, RecordAnswer,
    ReplayAnswer, ReplaySizeAnswer, ResourceAnswer, SilenceAnswer, WindowAnswer, WriteAnswer,
};
use reader::Reader;
use resource::{Cce, Resource};

// The number of the structs' layout, which the name carries too: a program that was compiled for another layout does not link.
#[unsafe(no_mangle)]
pub extern "C" fn feedback_layout_5() -> u16
    ensures { result ≡ 5 }
{
    5
}

#[tactic(auto, using(numbers::proofs::Windows::window_told))]
#[unsafe(no_mangle)]
pub extern "C" fn feedback_window(settings: Settings, n: u16) -> WindowAnswer
    ensures { result ≡ window_answer settings n }
{
    Window::new(settings, n).into()
}

#[unsafe(no_mangle)]
pub extern "C" fn feedback_answered(settings: Settings, subframe: u16) -> AnsweredAnswer
    ensures { result ≡ answered_answer (answered_of settings subframe) }
{
    settings.answered(subframe).into()
}

#[unsafe(no_mangle)]
pub extern "C" fn feedback_resource(
    settings: Settings,
    n: u16,
    position: u16,
    cce: u16,
) -> ResourceAnswer
    ensures { result ≡ resource_answer (ports_of settings n position cce) }
{
    resource::ports_of(settings, n, position, Cce::new(cce)).into()
}

#[unsafe(no_mangle)]
pub extern "C" fn feedback_inverse(settings: Settings, n: u16, resource: u16) -> InverseAnswer
    ensures { result ≡ inverse_answer (inverse_of settings n resource) }
{
    resource::inverse_of(settings, n, Resource::new(resource)).into()
}

// `position` is that of the scheduled block that was sent in the window, 65535 where none was.
#[unsafe(no_mangle)]
pub extern "C" fn feedback_reading(
    settings: Settings,
    n: u16,
    position: u16,
    resource: u16,
    b0: u16,
    b1: u16,
) -> ReadingAnswer
    ensures { result ≡ reading_answer (read_of settings n (told_position position) resource b0 b1) }
{
    let told = numbers::told_position(position);
    station::read(settings, n, told, Resource::new(resource), b0, b1).into()
}

#[unsafe(no_mangle)]
pub extern "C" fn feedback_confirmed(
    settings: Settings,
    n: u16,
    sent: SentWindow,
    resource: u16,
    b0: u16,
    b1: u16,
) -> ConfirmedAnswer
    ensures { result ≡ confirmed_answer (confirmed_of settings n sent resource b0 b1) }
{
    confirming::confirm(settings, n, &sent, Resource::new(resource), b0, b1).into()
}

#[unsafe(no_mangle)]
pub extern "C" fn feedback_open_account(price: u32) -> OpenedAnswer
    ensures { result ≡ opened_answer (open_of price) }
{
    let account = Account::new(price);
    (account.check(), account).into()
}

#[unsafe(no_mangle)]
pub extern "C" fn feedback_credit(
    settings: Settings,
    n: u16,
    sent: SentWindow,
    resource: u16,
    b0: u16,
    b1: u16,
    mut account: Account,
) -> CreditAnswer
    ensures { result ≡ credit_answer (credit_of settings n sent resource b0 b1 account) }
{
    let r = Resource::new(resource);
    let credited = credit::credit(settings, n, &sent, r, b0, b1, &mut account);
    (credited, account).into()
}

#[unsafe(no_mangle)]
pub extern "C" fn feedback_claims(
    settings: Settings,
    n: u16,
    claims: &[u16],
    scratch: &mut [u8],
) -> ClaimsAnswer
    ensures value { result ≡ claims_answer (checked_of settings n claims.now (length scratch.old)) }
    ensures scratch_after { scratch.new ≡ scratch_of settings n claims.now scratch.old }
{
    claims::claims_of(settings, n, claims, scratch).into()
}

#[unsafe(no_mangle)]
pub extern "C" fn feedback_claims_bits(
    settings: Settings,
    n: u16,
    claims: &[u16],
    scratch: &mut [u8],
) -> ClaimsAnswer
    ensures value { result ≡ claims_answer (bit_checked_of settings n claims.now (length scratch.old)) }
    ensures scratch_after { scratch.new ≡ bit_scratch_of settings n claims.now scratch.old }
{
    claims::claims_in_bits(settings, n, claims, scratch).into()
}

#[unsafe(no_mangle)]
pub extern "C" fn feedback_make(settings: Settings) -> MadeAnswer
    ensures { result ≡ made_answer (make_of settings) }
{
    Handset::new(settings).into()
}

#[unsafe(no_mangle)]
pub extern "C" fn feedback_change_mode(mut handset: Handset, mode: u16) -> ChangedAnswer
    ensures { result ≡ changed_answer (change_of handset mode) }
{
    let changed = handset.change_mode(mode);
    (changed, handset).into()
}

// The feed of a handset that comes by value, as all feeds of a C caller do.
fn fed(mut handset: Handset, x: Heard) -> FedAnswer
    ensures { result ≡ fed_answer (feed_of handset x) }
{
    let answer = handset.feed(x);
    (answer, handset).into()
}

#[unsafe(no_mangle)]
pub extern "C" fn feedback_feed_nothing(handset: Handset) -> FedAnswer
    ensures { result ≡ fed_answer (feed_of handset Nothing) }
{
    fed(handset, Heard::Nothing)
}

// Only a feed of nothing can be silent: 9 refuses all else in an uplink subframe.
#[unsafe(no_mangle)]
pub extern "C" fn feedback_silence(mut handset: Handset) -> SilenceAnswer
    ensures { result ≡ silence_answer (explain_of handset Nothing) }
{
    let explained = silence::explain(&mut handset, Heard::Nothing);
    (explained, handset).into()
}

// A decoded flag is a number: decoded unless it is 0.
#[unsafe(no_mangle)]
pub extern "C" fn feedback_feed_grant(
    handset: Handset,
    blocks: u16,
    first: u16,
    second: u16,
    cce: u16,
    dai: u16,
) -> FedAnswer
    ensures { result ≡ fed_answer (feed_of handset (grant_of blocks first second cce dai)) }
{
    let grant = Grant {
        blocks,
        first: first != 0,
        second: second != 0,
        cce: Cce::new(cce),
        dai,
    };
    fed(handset, Heard::Granted(grant))
}

#[unsafe(no_mangle)]
pub extern "C" fn feedback_feed_scheduled(
    handset: Handset,
    blocks: u16,
    first: u16,
    second: u16,
) -> FedAnswer
    ensures { result ≡ fed_answer (feed_of handset (block_of blocks first second)) }
{
    let block = ScheduledBlock {
        blocks,
        first: first != 0,
        second: second != 0,
    };
    fed(handset, Heard::Scheduled(block))
}

#[unsafe(no_mangle)]
pub extern "C" fn feedback_feed_release(handset: Handset, cce: u16, dai: u16) -> FedAnswer
    ensures { result ≡ fed_answer (feed_of handset (release_of cce dai)) }
{
    let release = Release {
        cce: Cce::new(cce),
        dai,
    };
    fed(handset, Heard::Released(release))
}

#[unsafe(no_mangle)]
pub extern "C" fn feedback_replay_size(trace: &[u8]) -> ReplaySizeAnswer
    ensures { result ≡ replay_size_answer (size_of trace.now) }
{
    sizing::replay_size(trace).into()
}

#[unsafe(no_mangle)]
pub extern "C" fn feedback_replay(trace: &[u8], out: &mut [u8]) -> ReplayAnswer
    ensures value { result ≡ replay_answer (replay_of trace.now (length out.old)) }
    ensures out_after { out.new ≡ output_of trace.now out.old }
{
    replaying::replay(trace, out).into()
}

// What a reader of the trace gives whose next record is the one of number `next`.
#[unsafe(no_mangle)]
pub extern "C" fn feedback_record(trace: &[u8], next: usize) -> RecordAnswer
    ensures { result ≡ record_answer (record_of trace.now next) }
{
    Reader { trace, next }.read().into()
}

#[unsafe(no_mangle)]
pub extern "C" fn feedback_trace_write(trace: &[u8], out: &mut [u8]) -> WriteAnswer
    ensures value { result ≡ write_answer (write_of trace.now (length out.old)) }
    ensures out_after { out.new ≡ spelled_into trace.now out.old }
{
    spelling::write(trace, out).into()
}

#[unsafe(no_mangle)]
pub extern "C" fn feedback_game(size: u16, grants: u16, losses: u16) -> GameAnswer
    ensures { result ≡ game_answer (game_of size grants losses) }
{
    playing::radio_wins(size, grants, losses).into()
}

// A C caller gets the handset back by value, as from a feed.
#[unsafe(no_mangle)]
pub extern "C" fn feedback_command(mut handset: Handset, block: &mut [u8]) -> CommandAnswer
    ensures value { result ≡ command_answer (command_of block.old handset).told }
    ensures block_after { block.new ≡ (command_of block.old handset).block }
{
    let commanded = registers::command(block, &mut handset);
    (commanded, handset).into()
}
