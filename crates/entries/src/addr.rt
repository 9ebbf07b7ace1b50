// Addresses and path elements at an offset of the memory.
ghost use Rattle.std.specs.Prelude.{◌≡◌, ◌+◌, ◌≤◌, length};
ghost use Rattle.types.specs.Addresses.{same_addr};
ghost use Rattle.types.specs.Paths.{same_entry};
ghost use Rattle.rules.specs.Memory.{coord_entry_of, cut};
ghost use Rattle.rules.specs.Layout.{address_size, coord_entry_size};

use raw::layout::ADDRESS;
use types::coord::CoordEntry;
use types::node_addr::NodeAddr;

// Whether the sixteen bytes at an offset equal the address, byte by byte. No byte ends the loop early, so that the compiler compares
// all sixteen at once.
#[tactic(auto, using(crate::proofs::Bytes::addr_turn, crate::proofs::Bytes::addr_end, crate::proofs::Bytes::and_in), unfolding(types::specs::Addresses::same_addr))]
pub(crate) fn addr_at(state: &[u8], at: usize, a: NodeAddr) -> bool
    requires { at + address_size ≤ length state.now }
    ensures { result ≡ same_addr a (record { 0 = cut at address_size state.now }) }
{
    let mut same = true;
    for i in 0..ADDRESS {
        same &= a.0[i] == state[at + i];
    }
    same
}

// Whether the element at an offset is this one: every field counts.
#[tactic(auto, using(crate::proofs::Bytes::element_same))]
pub(crate) fn coord_entry_at(state: &[u8], at: usize, e: CoordEntry) -> bool
    requires { at + coord_entry_size ≤ length state.now }
    ensures { result ≡ same_entry (coord_entry_of (cut at coord_entry_size state.now)) e }
{
    let same = addr_at(state, at, e.node_addr);
    let sequence = raw::numbers::read_u64(state, at + raw::layout::SEQUENCE);
    let timestamp = raw::numbers::read_u64(state, at + raw::layout::TIMESTAMP);
    same & ((sequence == e.sequence) & (timestamp == e.timestamp))
}

pub fn load_addr(state: &[u8], at: usize) -> NodeAddr
    requires { at + address_size ≤ length state.now }
    ensures { result ≡ record { 0 = cut at address_size state.now } }
{
    NodeAddr(state[at..at + ADDRESS].try_into().unwrap())
}

#[tactic(auto, using(crate::proofs::Bytes::element_made))]
pub fn load_coord_entry(state: &[u8], at: usize) -> CoordEntry
    requires { at + coord_entry_size ≤ length state.now }
    ensures { result ≡ coord_entry_of (cut at coord_entry_size state.now) }
{
    CoordEntry {
        node_addr: load_addr(state, at),
        sequence: raw::numbers::read_u64(state, at + raw::layout::SEQUENCE),
        timestamp: raw::numbers::read_u64(state, at + raw::layout::TIMESTAMP),
    }
}
