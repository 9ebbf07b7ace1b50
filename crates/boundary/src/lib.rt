// Operands as they come from another language, and replies as they go there.
#![tactic(auto)]

ghost use Rattle.std.specs.Prelude.{◌≡◌, true, ◌≤◌, Some};
ghost use Rattle.rules.specs.Sound.{sound};
ghost use Rattle.rules.specs.Memory.{capacity, view};
ghost use Rattle.rules.specs.Lent.{AddrFits};
ghost use Rattle.boundary.specs.Exported.{address_from, path_from, funding_from, row_taken};

use raw::layout::{ADDRESS, ELEMENT, ROW};
use types::coord::{PLACES, Path, zero_entry};
use types::node_addr::NodeAddr;
use types::placed::Funding;
use types::reply::Reply;

// What is known of an address by value.
fn owned(a: NodeAddr) -> NodeAddr
    ensures { (result ≡ a) × AddrFits result }
{
    a
}

pub fn address(bytes: &[u8; ADDRESS]) -> NodeAddr
    ensures { (result ≡ address_from bytes.now) × AddrFits result }
{
    owned(NodeAddr(*bytes))
}

// The elements that stand whole in the bytes.
#[tactic(auto, using(crate::proofs::Operands::copied_more, crate::proofs::Operands::path_made))]
pub fn path_from(bytes: &[u8]) -> Path
    ensures { result ≡ path_from bytes.now }
{
    let len = bytes.len() / ELEMENT;
    let held = len.min(PLACES);
    let zero = zero_entry();
    let mut entries = [zero; PLACES];
    for k in 0..held {
        entries[k] = entries::addr::load_coord_entry(bytes, k * ELEMENT);
    }
    Path { entries, len }
}

// The five values go out, and the number comes back.
pub fn tell(reply: Reply, values: &mut [u64; 5]) -> u8
    ensures { (result ≡ reply.refusal) × (values.new ≡ reply.values) }
{
    let v = reply.values;
    *values = v;
    reply.refusal
}

// Kind 0 Uncharged, 1 Upto.
#[tactic(auto, using(std::proofs::lemmas::Bool::Decides::nat_tests), unfolding(crate::specs::Exported::funding_from))]
pub fn funding(kind: u8, amount: u64) -> Funding
    requires { kind ≤ 1 }
    ensures { funding_from kind amount ≡ Some result }
{
    if kind == 0 {
        Funding::Uncharged
    } else {
        Funding::Upto(amount)
    }
}

// The bytes of the key's row, where it has one.
#[tactic(auto, using(refusals::proofs::SoundCalls::head_there, crate::proofs::Operands::row_inside, crate::proofs::Operands::row_taken_lem, crate::proofs::Operands::row_left))]
pub fn take_row(state: &[u8], key: NodeAddr, row: &mut [u8; ROW])
    requires { sound (capacity state.now) (view state.now) ≡ true }
    ensures { row.new ≡ row_taken key state.now row.old }
{
    let n = memory::head::row_count(state) as usize;
    let at = search::keys::search(state, n, key);
    match at {
        Ok(i) => {
            *row = rows::saved::save_row(state, n, i);
        }
        Err(_) => {}
    }
}
