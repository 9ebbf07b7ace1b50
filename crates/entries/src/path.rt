// The path of a row. Its places stand one behind another.
ghost use Rattle.std.specs.Prelude.{◌≡◌, ◌+◌, ◌*◌, ◌≤◌, ◌<◌, length};
ghost use Rattle.types.specs.Addresses.{same_addr};
ghost use Rattle.types.specs.Paths.{path_places, elements, same_path, contains, root_of};
ghost use Rattle.rules.specs.Rows.{row_at};
ghost use Rattle.rules.specs.Memory.{view_rows};
ghost use Rattle.rules.specs.Layout.{coord_entry_size, entry_offset, head_size, places_offset, row_size};

use crate::addr;
use memory::row::{Row, row_at};
use raw::layout::{ADDRESS, ELEMENT, HEAD, PATH_PLACES, ROW};
use std::ops::Range;
use types::coord::{CoordEntry, PLACES, Path};
use types::node_addr::NodeAddr;

// Where a stored path stands in the memory: its first byte, and the one behind its last. A Range can't be copied.
#[derive(Clone, Copy)]
pub struct PathPlace {
    pub start: usize,
    pub end: usize,
}

impl PathPlace {
    // Where no path is.
    pub const NOWHERE: PathPlace = PathPlace { start: 0, end: 0 };

    // The memory is indexed by it.
    pub fn range(self) -> Range<usize>
        ensures { (result.start ≡ self.start) × (result.end ≡ self.end) }
    {
        self.start..self.end
    }
}

// Whether the row's path and this one are the same, element by element, where it stands.
#[tactic(auto, using(crate::proofs::PathElements::elements_count, crate::proofs::PathElements::path_turn, types::proofs::PathLaws::entries_end, types::proofs::PathLaws::lengths_differ), unfolding(types::specs::Paths::same_path))]
pub fn path_is(row: &Row<'_>, path: &Path) -> bool
    ensures { result ≡ same_path row.now.entry.path path.now }
{
    let bytes = row.bytes();
    // A length past the last place means all of them.
    let held = (row.path_len() as usize).min(PLACES);
    if held != path.count() {
        return false;
    }
    for k in 0..held {
        let e = path.entries[k];
        if !addr::coord_entry_at(bytes, PATH_PLACES + k * ELEMENT, e) {
            return false;
        }
    }
    true
}

// Whether an element up to the length has the address.
#[tactic(auto, using(crate::proofs::PathElements::search_hit, crate::proofs::PathElements::search_miss, crate::proofs::PathElements::elements_length, types::proofs::PathLaws::among_end), unfolding(types::specs::Paths::contains))]
pub fn path_contains(row: &Row<'_>, a: NodeAddr) -> bool
    requires { row.now.entry.path.len ≤ path_places }
    ensures { result ≡ contains a row.now.entry.path }
{
    let len = row.path_len() as usize;
    let bytes = row.bytes();
    for k in 0..len {
        if addr::addr_at(bytes, PATH_PLACES + k * ELEMENT, a) {
            return true;
        }
    }
    false
}

// Whether the last element up to the length has the address.
#[tactic(auto, using(crate::proofs::Bytes::same_sym, crate::proofs::PathElements::root_place))]
pub fn root_is(row: &Row<'_>, a: NodeAddr) -> bool
    requires { (row.now.entry.path.len ≤ path_places) × (1 ≤ row.now.entry.path.len) }
    ensures { result ≡ same_addr (root_of row.now.entry.path) a }
{
    let len = row.path_len() as usize;
    addr::addr_at(row.bytes(), PATH_PLACES + (len - 1) * ELEMENT, a)
}

// Where the elements of row i of n stand, up to the length.
pub fn path_place(state: &[u8], n: usize, i: usize) -> PathPlace
    requires { (i < n) × (head_size + n * row_size ≤ length state.now) }
    ensures starts { result.start ≡ head_size + i * row_size + (entry_offset + places_offset) }
    ensures ends { result.end ≡ result.start + (row_at i (view_rows n state.now).rows).entry.path.len * coord_entry_size }
{
    let len = row_at(state, n, i).path_len() as usize;
    let start = HEAD + i * ROW + PATH_PLACES;
    PathPlace {
        start,
        end: start + len * ELEMENT,
    }
}

// All places and the length.
#[tactic(auto, using(crate::proofs::PathElements::places_length, raw::proofs::CopyLaws::copied))]
pub(crate) fn load_path(row: &Row<'_>) -> Path
    ensures { result ≡ row.now.entry.path }
{
    let bytes = row.bytes();
    let blank = CoordEntry {
        node_addr: NodeAddr([0u8; ADDRESS]),
        sequence: 0,
        timestamp: 0,
    };
    let mut entries = [blank; PLACES];
    for place in 0..PLACES {
        entries[place] = addr::load_coord_entry(bytes, PATH_PLACES + place * ELEMENT);
    }
    let len = row.path_len() as usize;
    Path { entries, len }
}
