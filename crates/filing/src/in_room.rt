// A row filed once room was sought: in the place of the victim that was left for it, or in a free row.
ghost use Rattle.std.specs.Prelude.{◌≤◌};
ghost use Rattle.types.specs.Paths.{path_places};
ghost use Rattle.rules.specs.Room.{file_new};
ghost use Rattle.rules.specs.Memory.{view_rows};
ghost use Rattle.room.specs.Rooms.{without_victim};
ghost use Rattle.entries.specs.NewEntries.{entry_from};
ghost use Rattle.filing.specs.InRoom.{Takes, Shows};

use crate::file::{file_new, file_over_victim};
use entries::new_entry::NewEntry;
use room::victims::Victim;
use types::node_addr::NodeAddr;

#[tactic(auto, using(room::proofs::LeftVictims::without_at, room::proofs::LeftVictims::without_none, crate::proofs::FiledInRoom::rows_there))]
pub fn file_in_room(
    state: &mut [u8],
    n: usize,
    victim: Option<Victim>,
    key: NodeAddr,
    e: NewEntry,
    weight: u8,
    place: u8,
)
    requires { Takes key victim n state.old × (e.path.len ≤ path_places) }
    ensures { Shows (file_new key (entry_from e) weight place (without_victim victim (view_rows n state.old))) state.new }
{
    match victim {
        None => file_new(state, n, key, e, weight, place),
        Some(v) => file_over_victim(state, n, v, key, e, weight, place),
    }
}
