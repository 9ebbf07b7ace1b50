// A command read from bytes: the command byte decides; its operands have fixed widths, little-endian.
ghost use Rattle.std.specs.Prelude.{◌≡◌, ◌≤◌, length, drop};
ghost use Rattle.rules.specs.Layout.{address_size};
ghost use Rattle.rules.specs.Commands.{key_in, time_in, key_time_size, with_funding_size};
ghost use Rattle.commands.specs.Widths.{HoldsOperands};
ghost use Rattle.commands.specs.Reading.{command_in, command_read, named, funding_in};

use crate::call::{Call, Command, Write};
use crate::command::width_of;
use crate::width::{AMOUNT, FRESH_TTL, KIND, MTU, TIME, TTL};
use entries::addr::{load_addr, load_coord_entry};
use raw::numbers::{read_u8, read_u16, read_u64};
use types::node_addr::NodeAddr;
use types::placed::Funding;

// The key, or an address alone.
fn key(operands: &[u8]) -> NodeAddr
    requires { address_size ≤ length operands.now }
    ensures { result ≡ key_in operands.now }
{
    load_addr(operands, 0)
}

// The time behind a key.
fn time(operands: &[u8]) -> u64
    requires { key_time_size ≤ length operands.now }
    ensures { result ≡ time_in operands.now }
{
    read_u64(operands, TIME)
}

// Kind 0 Uncharged, 1 Upto an amount; none over 1.
#[tactic(auto, using(std::proofs::lemmas::Bool::Decides::nat_tests), unfolding(crate::specs::Reading::funding_in))]
fn funding(operands: &[u8]) -> Option<Funding>
    requires { with_funding_size ≤ length operands.now }
    ensures { result ≡ funding_in operands.now }
{
    match read_u8(operands, KIND) {
        0 => Some(Funding::Uncharged),
        1 => Some(Funding::Upto(read_u64(operands, AMOUNT))),
        2..=0xff => None,
    }
}

// What a code says by its operands, which are there.
#[tactic(auto, using(std::proofs::lemmas::Bool::Decides::nat_tests, crate::proofs::FundingKind::funding_read, crate::proofs::Operands::element_in), unfolding(rules::specs::Commands::codes, rules::specs::Commands::code, rules::specs::Commands::code_of, rules::specs::Commands::read_as, crate::specs::Reading::funding_in, crate::specs::Reading::named, crate::specs::Reading::command_named, crate::specs::Reading::write_named, crate::specs::Reading::call_named, crate::specs::Reading::command_in))]
fn read(code: u8, operands: &[u8]) -> Option<Command>
    requires { HoldsOperands code (length operands.now) }
    ensures { named result ≡ command_in code operands.now }
{
    match code {
        0x00 => Some(Command::Fresh {
            max: read_u16(operands, 0) as u64,
            ttl: read_u64(operands, FRESH_TTL),
        }),
        0x01 => Some(Command::Element(load_coord_entry(operands, 0))),
        0x02..=0x0f => None,
        0x10 => Some(Command::Write(Write::Insert {
            key: key(operands),
            time: time(operands),
        })),
        0x11 => Some(Command::Write(Write::InsertWithTtl {
            key: key(operands),
            time: time(operands),
            ttl: read_u64(operands, TTL),
        })),
        0x12 => {
            let funding = funding(operands)?;
            Some(Command::Write(Write::InsertFunded {
                key: key(operands),
                time: time(operands),
                funding: funding,
            }))
        }
        0x13 => {
            let funding = funding(operands)?;
            Some(Command::Write(Write::InsertStated {
                key: key(operands),
                time: time(operands),
                funding: funding,
            }))
        }
        0x14 => Some(Command::Write(Write::InsertVerified {
            key: key(operands),
            time: time(operands),
        })),
        0x15 => Some(Command::Write(Write::InsertVerifiedWithPathMtu {
            key: key(operands),
            time: time(operands),
            mtu: read_u16(operands, MTU),
        })),
        0x16..=0x1f => None,
        0x20 => Some(Command::Call(Call::Get {
            key: key(operands),
            time: time(operands),
        })),
        0x21 => Some(Command::Call(Call::GetAndTouch {
            key: key(operands),
            time: time(operands),
        })),
        0x22 => Some(Command::Call(Call::Remove { key: key(operands) })),
        0x23 => Some(Command::Call(Call::Demote { key: key(operands) })),
        0x24 => Some(Command::Call(Call::ClearPathMtu { key: key(operands) })),
        0x25..=0x2f => None,
        0x30 => Some(Command::Call(Call::PurgeExpired {
            time: read_u64(operands, 0),
        })),
        0x31 => Some(Command::Call(Call::Clear)),
        0x32 => Some(Command::Call(Call::InvalidateViaNode {
            addr: key(operands),
        })),
        0x33 => Some(Command::Call(Call::InvalidateOtherRoots {
            addr: key(operands),
        })),
        0x34..=0x3f => None,
        0x40 => Some(Command::Call(Call::Stats {
            time: read_u64(operands, 0),
        })),
        0x41 => Some(Command::Call(Call::NextExpiry)),
        0x42..=0xff => None,
    }
}

// The command `code` with the bytes of the input from `at` on behind it; none for a code that is unknown, operands that are cut,
// and a funding kind over 1.
#[tactic(auto, using(std::proofs::lemmas::Grind::common_steps, crate::proofs::Operands::unknown_read, crate::proofs::Operands::whole_read, crate::proofs::Operands::held), unfolding(crate::specs::Reading::named))]
pub(crate) fn decode(code: u8, input: &[u8], at: usize) -> Option<Command>
    requires { at ≤ length input.now }
    ensures { named result ≡ command_read code (drop at input.now) }
{
    let width = width_of(code)?;
    if input.len() - at < width {
        return None;
    }
    read(code, &input[at..at + width])
}
