// A run over a stream of commands, with replies as lines of text. Whether the state is sound is asked once, and kept.
ghost use Rattle.std.specs.Prelude.{◌≡◌, ◌+◌, ◌-◌, ◌≤◌, ◌<◌, ◌++◌, length, drop, get_or};
ghost use Rattle.std.proofs.Math.Seq.{slice};
ghost use Rattle.commands.specs.OnMemory.{session};
ghost use Rattle.stream.specs.Runs.{run_part};
ghost use Rattle.stream.specs.Running.{next_is, Holds, EndsAs};

use crate::stop::Stop;
use commands::command::{command_at, width_of};
use replies::line::{LINE, put_line};
use types::reply::Tally;
use types::sender::Sender;

#[derive(Clone, Copy)]
pub struct Ran {
    // How many bytes of the input were used.
    pub used: usize,
    // How many bytes of the output were written.
    pub written: usize,
    pub sender: Sender,
    pub tally: Tally,
    pub stop: Stop,
}

// What stands at the front of the input: no room for its line, too few bytes, or a command and the number of its operands'
// bytes. One that is unknown, or cut at the very end of the input, counts as a command: it is refused by 6.
#[derive(Clone, Copy)]
enum Next {
    Full,
    Cut,
    Command(usize),
}

#[tactic(auto, using(std::proofs::lemmas::Grind::common_steps), unfolding(crate::specs::Running::next_is, crate::specs::Runs::operands_in, crate::specs::Runs::cut_short_in))]
fn next_command(input: &[u8], at: usize, room: usize, last: bool) -> Next
    requires { at < length input.now }
    ensures next { result ≡ next_is room last (get_or input.now at 0) (drop (at + 1) input.now) }
    ensures holds { Holds room at (length input.now) result }
{
    if room < LINE {
        return Next::Full;
    }
    let left = input.len() - at - 1;
    match width_of(input[at]) {
        None => Next::Command(0),
        Some(w) => {
            if w <= left {
                return Next::Command(w);
            }
            if last {
                return Next::Command(left);
            }
            Next::Cut
        }
    }
}

// Runs the commands of the input, one line each into the output. `last`: no bytes follow these. An output of fewer than 129
// bytes holds no line, and no command is run.
#[tactic(auto, using(crate::proofs::Turns::start))]
pub fn run(
    state: &mut [u8],
    sender: Sender,
    tally: Tally,
    input: &[u8],
    last: bool,
    output: &mut [u8],
) -> Ran
    ensures ends_as { EndsAs (run_part (length input.now) last (length output.old) (session state.old sender) input.now) tally result state.new output.old output.new }
    ensures used_in_bounds { (result.used ≤ length input.now) × (result.written ≤ length output.old) }
{
    let mut is_sound = state::check::is_sound(state);
    let mut from = sender;
    let mut counts = tally;
    let mut at = 0;
    let mut put = 0;
    while at < input.len() {
        let code = input[at];
        let found = next_command(input, at, output.len() - put, last);
        match found {
            Next::Full => {
                return Ran {
                    used: at,
                    written: put,
                    sender: from,
                    tally: counts,
                    stop: Stop::Full,
                };
            }
            Next::Cut => {
                return Ran {
                    used: at,
                    written: put,
                    sender: from,
                    tally: counts,
                    stop: Stop::Cut,
                };
            }
            Next::Command(width) => {
                let done = command_at(state, is_sound, from, code, input, at + 1);
                let reply = done.reply;
                let refusal = reply.refusal;
                put = put_line(output, put, code, reply);
                counts = crate::tally::count_held(counts, refusal);
                from = done.sender;
                is_sound = done.sound;
                at += 1 + width;
                if refusal == 6 {
                    return Ran {
                        used: at,
                        written: put,
                        sender: from,
                        tally: counts,
                        stop: Stop::Six,
                    };
                }
            }
        }
    }
    Ran {
        used: at,
        written: put,
        sender: from,
        tally: counts,
        stop: Stop::End,
    }
}

// The bytes of a buffer that a run did not use, from `used` up to `held`, move to its start; how many they are.
pub fn keep_unused(buffer: &mut [u8], used: usize, held: usize) -> usize
    requires { (used ≤ held) × (held ≤ length buffer.old) }
    ensures { (result ≡ held - used) × (buffer.new ≡ slice used held buffer.old ++ drop (held - used) buffer.old) }
{
    buffer.copy_within(used..held, 0);
    held - used
}
