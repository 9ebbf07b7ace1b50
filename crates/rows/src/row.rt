// A row by value, and its bytes, in groups of fields. `at` is the row's first byte, and the offsets are raw::layout's (docs/PACKING.md).
ghost use Rattle.std.specs.Prelude.{◌≡◌, ◌++◌, ◌+◌, ◌≤◌, length};
ghost use Rattle.std.proofs.lemmas.List.Edits.{sets};
ghost use Rattle.types.specs.Paths.{path_places};
ghost use Rattle.rules.specs.Records.{empty_entry, with_mtu, with_source, with_times};
ghost use Rattle.rules.specs.Memory.{le_bytes, marks_bytes, row_bytes, times_bytes};
ghost use Rattle.rules.specs.Lent.{Small};
ghost use Rattle.rules.proofs.ViewLaws.{RowFits};
ghost use Rattle.rules.specs.Layout.{byte_size, created_at_in_row, mtu_mark_in_row, mtu_size, number_size, place_offset, row_size};
ghost use Rattle.rows.specs.Insertions.{row_from};

use crate::values;
use raw::layout;
use types::coord::Path;
use types::node_addr::NodeAddr;

#[derive(Clone, Copy)]
pub struct NewRow {
    pub key: NodeAddr,
    pub path: Path,
    pub created_at: u64,
    pub last_used: u64,
    pub expires_at: u64,
    pub mtu_mark: u8,
    pub mtu: u16,
    pub source: u8,
    pub verified_until: u64,
    pub place: u8,
    pub stamp_first: u64,
    pub stamp_seq: u64,
    pub weight: u8,
}

#[tactic(auto, using(memory::proofs::StoreRuns::three_from, rules::proofs::MemoryLaws::length_le))]
fn write_times(s: &mut [u8], at: usize, created: u64, used: u64, expires: u64)
    requires { at + row_size ≤ length s.old }
    ensures s_after { s.new ≡ sets s.old (at + created_at_in_row) (times_bytes (with_times used expires (empty_entry created))) }
    ensures small { Small number_size created × Small number_size used × Small number_size expires }
{
    raw::numbers::write_u64(s, at + layout::CREATED_AT, created);
    raw::numbers::write_u64(s, at + layout::LAST_USED, used);
    raw::numbers::write_u64(s, at + layout::EXPIRES_AT, expires);
}

#[tactic(auto, using(memory::proofs::StoreRuns::three_from, rules::proofs::MemoryLaws::length_le, crate::proofs::RowImage::joined))]
fn write_marks(s: &mut [u8], at: usize, mark: u8, mtu: u16, source: u8, until: u64)
    requires { at + row_size ≤ length s.old }
    ensures s_after { s.new ≡ sets s.old (at + mtu_mark_in_row) (marks_bytes (with_source source until (with_mtu mark mtu (empty_entry 0)))) }
    ensures small { Small byte_size mark × Small mtu_size mtu × Small byte_size source × Small number_size until }
{
    raw::numbers::write_u8(s, at + layout::MTU_MARK, mark);
    raw::numbers::write_u16(s, at + layout::MTU, mtu);
    memory::row::write_source(s, at, source, until);
}

#[tactic(auto, using(memory::proofs::StoreRuns::four_from, rules::proofs::MemoryLaws::length_le))]
fn write_stamp(s: &mut [u8], at: usize, place: u8, first: u64, seq: u64, weight: u8)
    requires { at + row_size ≤ length s.old }
    ensures s_after { s.new ≡ sets s.old (at + place_offset) (le_bytes byte_size place ++ (le_bytes number_size first ++ (le_bytes number_size seq ++ le_bytes byte_size weight))) }
    ensures small { Small byte_size place × Small number_size first × Small number_size seq × Small byte_size weight }
{
    raw::numbers::write_u8(s, at + layout::PLACE, place);
    raw::numbers::write_u64(s, at + layout::STAMP_FIRST, first);
    raw::numbers::write_u64(s, at + layout::STAMP_SEQ, seq);
    raw::numbers::write_u8(s, at + layout::WEIGHT, weight);
}

// All bytes of a row.
#[tactic(auto, using(crate::proofs::RowImage::row_stored))]
pub(crate) fn write_row(s: &mut [u8], at: usize, r: NewRow)
    requires { (at + row_size ≤ length s.old) × (r.path.len ≤ path_places) }
    ensures s_after { s.new ≡ sets s.old at (row_bytes (row_from r)) }
    ensures row_fits { RowFits (row_from r) }
{
    values::store_addr(s, at, r.key);
    values::store_path(s, at + layout::ENTRY, r.path);
    write_times(s, at, r.created_at, r.last_used, r.expires_at);
    write_marks(s, at, r.mtu_mark, r.mtu, r.source, r.verified_until);
    write_stamp(s, at, r.place, r.stamp_first, r.stamp_seq, r.weight);
}
