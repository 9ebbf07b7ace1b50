// One command on a state: read, refused by 6 or 1, or obeyed; and what it leaves the sender.
ghost use Rattle.std.specs.Prelude.{◌≡◌, ◌≤◌, length, drop};
ghost use Rattle.rules.specs.Sound.{sound};
ghost use Rattle.rules.specs.Memory.{capacity, view};
ghost use Rattle.commands.specs.Widths.{width_of};
ghost use Rattle.rules.specs.Refusals.{Fresh};
ghost use Rattle.rules.specs.Commands.{Plain, after_six};
ghost use Rattle.commands.specs.OnMemory.{obey, obey_byte, session};
ghost use Rattle.commands.specs.After.{Answers, Made, refused_by, after_element};
ghost use Rattle.types.specs.Values.{refusal_code};
ghost use Rattle.types.specs.Paths.{appended};
ghost use Rattle.types.specs.Senders.{emptied};
ghost use Rattle.commands.specs.Reading.{call_named, write_named};

use crate::call::{Call, Command, Write};
use crate::decode::decode;
use crate::obey::{obey, write};
use crate::width::{FRESH, KEY_TIME, WITH_FUNDING, WITH_MTU, WITH_TTL};
use raw::layout::{ADDRESS, ELEMENT, NUMBER};
use replies::answer::reply;
use types::coord::CoordEntry;
use types::refusal::Refusal;
use types::reply::{Reply, says};
use types::sender::Sender;

// What a command says, and what it leaves beside the state: what the sender has, and whether the state is sound.
#[derive(Clone, Copy)]
pub struct AfterCommand {
    pub reply: Reply,
    pub sender: Sender,
    pub sound: bool,
}

// A refused command: the sender is left this.
pub(crate) fn refused(refusal: Refusal, is_sound: bool, sender: Sender) -> AfterCommand
    ensures { result ≡ refused_by (refusal_code refusal) is_sound sender }
{
    AfterCommand {
        reply: Reply::from(refusal),
        sender: sender,
        sound: is_sound,
    }
}

// 00. Where it is done the state is sound; refused, it leaves all as it was.
fn fresh(state: &mut [u8], is_sound: bool, sender: Sender, max: u64, ttl: u64) -> AfterCommand
    requires { is_sound ≡ sound (capacity state.old) (view state.old) }
    ensures { Answers (obey (session state.old sender) (Plain (Fresh max ttl))) result state.new }
{
    let answer = state::fresh::fresh(state, max, ttl);
    AfterCommand {
        reply: reply(answer),
        sender: sender,
        sound: is_sound | answer.is_ok(),
    }
}

// 01: an element onto the pending path; a 33rd is refused by 2 and dropped.
fn element(is_sound: bool, sender: Sender, entry: CoordEntry) -> AfterCommand
    ensures { result ≡ after_element (appended sender.pending entry) is_sound sender }
{
    let pending = sender.pending;
    match pending.append(entry) {
        Ok(path) => AfterCommand {
            reply: says(path.len as u64, 0, 0, 0, 0),
            sender: sender.with_pending(path),
            sound: is_sound,
        },
        Err(refusal) => refused(refusal, is_sound, sender),
    }
}

// No command. Codes 10 to 15 empty the pending path here too.
#[tactic(auto, using(std::proofs::lemmas::Bool::Decides::nat_tests), unfolding(rules::specs::Commands::after_six, rules::specs::Commands::takes_path))]
fn unread(code: u8, is_sound: bool, sender: Sender) -> AfterCommand
    ensures { result ≡ refused_by 6 is_sound (after_six code sender) }
{
    match code {
        0x10..=0x15 => refused(Refusal::BadCommand, is_sound, sender.emptied()),
        _ => refused(Refusal::BadCommand, is_sound, sender),
    }
}

// Codes 10 to 15 empty the pending path, refused or not.
#[tactic(auto, using(crate::proofs::CommandLaws::made_unsound, crate::proofs::CommandLaws::made_sound))]
fn written(state: &mut [u8], is_sound: bool, sender: Sender, said: Write) -> AfterCommand
    requires { is_sound ≡ sound (capacity state.old) (view state.old) }
    ensures { Made is_sound state.old (write_named said sender.pending) (emptied sender) result state.new }
{
    if !is_sound {
        return refused(Refusal::UnsoundState, is_sound, sender.emptied());
    }
    let pending = sender.pending;
    AfterCommand {
        reply: write(state, pending, said),
        sender: sender.emptied(),
        sound: is_sound,
    }
}

// Every other call keeps it.
#[tactic(auto, using(crate::proofs::CommandLaws::made_unsound, crate::proofs::CommandLaws::made_sound))]
fn called(state: &mut [u8], is_sound: bool, sender: Sender, call: Call) -> AfterCommand
    requires { is_sound ≡ sound (capacity state.old) (view state.old) }
    ensures { Made is_sound state.old (call_named call) sender result state.new }
{
    if !is_sound {
        return refused(Refusal::UnsoundState, is_sound, sender);
    }
    AfterCommand {
        reply: obey(state, call),
        sender: sender,
        sound: is_sound,
    }
}

// The width of a command's operands, for whoever needs it before the command is obeyed.
#[tactic(auto, using(std::proofs::lemmas::Bool::Decides::nat_tests), unfolding(crate::specs::Widths::width_in, rules::specs::Commands::code_of, rules::specs::Commands::codes, rules::specs::Commands::code))]
pub fn width_of(code: u8) -> Option<usize>
    ensures { result ≡ width_of code }
{
    match code {
        0x00 => Some(FRESH),
        0x01 => Some(ELEMENT),
        0x02..=0x0f => None,
        0x10 => Some(KEY_TIME),
        0x11 => Some(WITH_TTL),
        0x12 => Some(WITH_FUNDING),
        0x13 => Some(WITH_FUNDING),
        0x14 => Some(KEY_TIME),
        0x15 => Some(WITH_MTU),
        0x16..=0x1f => None,
        0x20 => Some(KEY_TIME),
        0x21 => Some(KEY_TIME),
        0x22 => Some(ADDRESS),
        0x23 => Some(ADDRESS),
        0x24 => Some(ADDRESS),
        0x25..=0x2f => None,
        0x30 => Some(NUMBER),
        0x31 => Some(0),
        0x32 => Some(ADDRESS),
        0x33 => Some(ADDRESS),
        0x34..=0x3f => None,
        0x40 => Some(NUMBER),
        0x41 => Some(0),
        0x42..=0xff => None,
    }
}

// The command `code` with the bytes of the input from `at` on behind it; the caller knows whether the state is sound.
#[tactic(auto, using(crate::proofs::CommandLaws::none_read, crate::proofs::CommandLaws::six, crate::proofs::CommandLaws::element_answers))]
pub fn command_at(
    state: &mut [u8],
    is_sound: bool,
    sender: Sender,
    code: u8,
    input: &[u8],
    at: usize,
) -> AfterCommand
    requires { (is_sound ≡ sound (capacity state.old) (view state.old)) × (at ≤ length input.now) }
    ensures { Answers (obey_byte (session state.old sender) code (drop at input.now)) result state.new }
{
    match decode(code, input, at) {
        None => unread(code, is_sound, sender),
        Some(Command::Fresh { max, ttl }) => fresh(state, is_sound, sender, max, ttl),
        Some(Command::Element(entry)) => element(is_sound, sender, entry),
        Some(Command::Write(said)) => written(state, is_sound, sender, said),
        Some(Command::Call(call)) => called(state, is_sound, sender, call),
    }
}

// One command on a state in any condition.
pub fn command(state: &mut [u8], sender: Sender, code: u8, operands: &[u8]) -> AfterCommand
    ensures { Answers (obey_byte (session state.old sender) code operands.now) result state.new }
{
    let is_sound = state::check::is_sound(state);
    command_at(state, is_sound, sender, code, operands, 0)
}
