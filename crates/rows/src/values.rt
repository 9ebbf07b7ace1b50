// An address, a path element and a path, written at an offset.
ghost use Rattle.std.specs.Prelude.{◌≡◌, [], ◌∷◌, ◌+◌, ◌≤◌, length};
ghost use Rattle.std.proofs.lemmas.List.Edits.{sets};
ghost use Rattle.types.specs.Paths.{as_written, path_places};
ghost use Rattle.rules.specs.Memory.{addr_bytes, coord_entries_bytes, path_bytes};
ghost use Rattle.rules.specs.Lent.{AddrFits, CoordEntryFits, PathFits};
ghost use Rattle.rules.specs.Layout.{address_size, coord_entry_size, path_size};

use raw::layout::{ADDRESS, BYTE, ELEMENT, PATH, SEQUENCE, TIMESTAMP};
use types::coord::{CoordEntry, Path};
use types::node_addr::NodeAddr;

pub(crate) fn store_addr(s: &mut [u8], at: usize, a: NodeAddr)
    requires { at + address_size ≤ length s.old }
    ensures s_after { s.new ≡ sets s.old at (addr_bytes a) }
    ensures addr_fits { AddrFits a }
{
    s[at..at + ADDRESS].copy_from_slice(&a.0);
}

#[tactic(auto, using(memory::proofs::OwnedValues::owned_entry, memory::proofs::StoreRuns::three, rules::proofs::MemoryLaws::length_le, crate::proofs::RowImage::joined), unfolding(rules::specs::Memory::coord_entries_bytes))]
fn store_coord_entry(s: &mut [u8], at: usize, e: CoordEntry)
    requires { at + coord_entry_size ≤ length s.old }
    ensures s_after { s.new ≡ sets s.old at (coord_entries_bytes (e ∷ [])) }
    ensures coord_entry_fits { CoordEntryFits e }
{
    store_addr(s, at, e.node_addr);
    raw::numbers::write_u64(s, at + SEQUENCE, e.sequence);
    raw::numbers::write_u64(s, at + TIMESTAMP, e.timestamp);
}

// The length, the elements up to it, and zeros past them.
pub fn store_path(s: &mut [u8], at: usize, p: Path)
    requires { (at + path_size ≤ length s.old) × (p.len ≤ path_places) }
    ensures s_after { s.new ≡ sets s.old at (path_bytes (as_written p)) }
    ensures path_fits { PathFits p }
{
    let n = p.len;
    raw::numbers::write_u8(s, at, n as u8);
    for i in 0..n {
        store_coord_entry(s, at + BYTE + i * ELEMENT, p.entries[i]);
    }
    let from = at + BYTE + n * ELEMENT;
    let to = at + PATH;
    raw::moves::fill_zero(s, from, to);
}
