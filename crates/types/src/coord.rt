// Path elements and paths: a node's coordinates in the tree, from the node to the root.
ghost use Rattle.std.specs.Prelude.{◌≡◌, ◌≤◌, length};
ghost use Rattle.types.specs.Paths.{path_places, empty_path, elements, starts_at, path_weight, appended};
ghost use Rattle.types.specs.Paths.{zero_entry};

use crate::node_addr::{ADDRESS_BYTES, NodeAddr};
use crate::refusal::Refusal;

// A node on a path, with the sequence number and the timestamp of its declaration.
#[derive(Clone, Copy)]
pub struct CoordEntry {
    pub node_addr: NodeAddr,
    pub sequence: u64,
    pub timestamp: u64,
}

// How many places a path has.
pub const PLACES: usize = 32;

// What B allows for each entry, and the least that a path weighs.
pub const ADDRS_PER_ENTRY: u64 = 16;

// Places and a length: element 0 is the node, the last one up to the length is the root.
#[derive(Clone, Copy)]
pub struct Path {
    pub entries: [CoordEntry; PLACES],
    pub len: usize,
}

// What stands past a path's length.
#[tactic(auto, unfolding(crate::specs::Paths::zero_entry))]
pub fn zero_entry() -> CoordEntry
    ensures { result ≡ zero_entry }
{
    CoordEntry {
        node_addr: NodeAddr([0u8; ADDRESS_BYTES]),
        sequence: 0,
        timestamp: 0,
    }
}

impl Path {
    #[tactic(auto, unfolding(crate::specs::Paths::empty_path))]
    pub fn empty() -> Path
        ensures { result ≡ empty_path }
    {
        let e = zero_entry();
        let es = [e; PLACES];
        Path {
            entries: es,
            len: 0,
        }
    }

    // How many places hold an element. A length past the last place, which no write makes, means all of them.
    #[tactic(auto, unfolding(crate::specs::Paths::elements))]
    pub fn count(self) -> usize
        ensures value { result ≡ length (elements self) }
        ensures upper_bound { result ≤ path_places }
    {
        self.len.min(PLACES)
    }

    #[tactic(auto, using(crate::proofs::PathLaws::equal_bytes, crate::proofs::PathLaws::no_first, crate::proofs::PathLaws::first_element), unfolding(crate::specs::Paths::starts_at, crate::specs::Addresses::same_addr))]
    pub fn starts_at(self, key: NodeAddr) -> bool
        ensures { result ≡ starts_at key self }
    {
        self.count() != 0 && self.entries[0].node_addr == key
    }

    // What a path adds to the main segment: an element a unit, and sixteen at least.
    #[tactic(auto, unfolding(crate::specs::Paths::path_weight))]
    pub fn weight(self) -> u64
        ensures { result ≡ path_weight self }
    {
        (self.len as u64).max(ADDRS_PER_ENTRY)
    }

    // The element goes behind the last one, if there is a place.
    #[tactic(auto, unfolding(crate::specs::Paths::appended))]
    pub fn append(self, e: CoordEntry) -> Result<Path, Refusal>
        ensures { result ≡ appended self e }
    {
        let n = self.len;
        if n < PLACES {
            let mut q = self;
            q.entries[n] = e;
            q.len = n + 1;
            Ok(q)
        } else {
            Err(Refusal::PathLength)
        }
    }
}
