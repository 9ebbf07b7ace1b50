// 2. A new key; and for held keys too, Rejected.
ghost use Rattle.std.specs.Prelude.{◌≡◌, ◌*◌, ◌≤◌};
ghost use Rattle.rules.specs.Records.{max_rows};
ghost use Rattle.rules.specs.Refusals.{last_seq};
ghost use Rattle.rules.specs.Memory.{view_rows};
ghost use Rattle.room.specs.Rooms.{Without, StampsLeft, without_victim};
ghost use Rattle.filing.specs.InRoom.{Takes};
ghost use Rattle.placement.specs.Operands.{new_in_probation, new_in_main, new_without_room, place_new};
ghost use Rattle.placement.specs.Placements.{Placing, no_room, inserted_as, rejected_as};

use crate::operands::Hint;
use entries::new_entry::new_entry;
use filing::in_room::file_in_room;
use memory::codes::{BY_USE, PROBATION};
use room::probation::make_probation_room;
use room::victims::{Room, make_room};
use types::placed::{Funding, HintOutcome, Placed, Segment};

fn inserted(added: u64, segment: Segment, unfunded: bool, examined: u64) -> Placed
    ensures { result ≡ inserted_as added segment unfunded examined }
{
    Placed {
        outcome: HintOutcome::Inserted,
        added_weight: added,
        segment,
        unfunded,
        examined,
    }
}

// To probation, with room made there; `before` keys were examined already.
#[tactic(auto, using(room::proofs::RoomToFile::laid_out, crate::proofs::NewKeys::probation_few, crate::proofs::NewKeys::probation_takes), unfolding(crate::specs::Operands::new_in_probation, crate::specs::Operands::new_entry, rules::specs::Placement::new_in_probation, rules::specs::Placement::place_result))]
fn new_in_probation(
    state: &mut [u8],
    n: usize,
    hint: &Hint<'_>,
    unfunded: bool,
    before: u64,
) -> Placed
    requires { Without hint.now.key n state.old × StampsLeft n state.old × (before ≤ 2 * max_rows) }
    ensures { Placing (new_in_probation hint.now unfunded before (view_rows n state.old)) result state.new }
{
    let w = hint.weight();
    let room = make_probation_room(state, n);
    let e = new_entry(*hint.path, hint.time, hint.ttl);
    file_in_room(state, n, room.victim, hint.key, e, w, PROBATION);
    inserted(0, Segment::Probation, unfunded, before + room.examined)
}

// Covered, and room was made: to main, at its weight.
#[tactic(auto, unfolding(crate::specs::Operands::new_in_main, crate::specs::Operands::new_entry, rules::specs::Placement::place_result))]
fn new_in_main(state: &mut [u8], room: Room, hint: &Hint<'_>) -> Placed
    requires { Takes hint.now.key room.victim room.rows state.old }
    ensures { Placing (new_in_main hint.now room.examined (without_victim room.victim (view_rows room.rows state.old))) result state.new }
{
    let w = hint.weight();
    let e = new_entry(*hint.path, hint.time, hint.ttl);
    file_in_room(state, room.rows, room.victim, hint.key, e, w, BY_USE);
    inserted(w as u64, Segment::Main, false, room.examined)
}

// No room: Upto to probation, but not unfunded; Uncharged is Rejected.
#[tactic(auto, using(filing::proofs::FiledInRoom::rows_there), unfolding(crate::specs::Operands::new_without_room, crate::specs::Operands::new_in_probation, rules::specs::Placement::new_without_room, rules::specs::Placement::place_result, rules::specs::Placement::rejected))]
fn new_without_room(state: &mut [u8], room: Room, hint: &Hint<'_>) -> Placed
    requires { Without hint.now.key room.rows state.old × StampsLeft room.rows state.old × (room.examined ≤ 2 * max_rows) }
    ensures { Placing (new_without_room hint.now (no_room (view_rows room.rows state.old) room.examined)) result state.new }
{
    match hint.funding {
        Funding::Uncharged => reject(false, room.examined),
        Funding::Upto(_) => new_in_probation(state, room.rows, hint, false, room.examined),
    }
}

// Rejected: added 0, segment Main.
pub fn reject(unfunded: bool, examined: u64) -> Placed
    ensures { result ≡ rejected_as unfunded examined }
{
    Placed {
        outcome: HintOutcome::Rejected,
        added_weight: 0,
        segment: Segment::Main,
        unfunded,
        examined,
    }
}

// Not covered, to probation, unfunded; covered and room made, to main.
#[tactic(auto, using(room::proofs::RoomToFile::laid_out, filing::proofs::RoomSought::stamps_left, filing::proofs::RoomSought::room_asks, crate::proofs::NewKeys::new_uncovered, crate::proofs::NewKeys::new_covered, crate::proofs::NewKeys::in_made, crate::proofs::NewKeys::in_unmade, crate::proofs::NewKeys::made_takes))]
pub fn place_new(state: &mut [u8], n: usize, hint: &Hint<'_>) -> Placed
    requires { Without hint.now.key n state.old × ((view_rows n state.old).seq ≤ last_seq) }
    ensures { Placing (place_new hint.now (view_rows n state.old)) result state.new }
{
    let w = hint.path.weight();
    if !hint.funding.covers(w) {
        return new_in_probation(state, n, hint, true, 0);
    }
    let room = make_room(state, n, w, hint.time);
    if room.made {
        new_in_main(state, room, hint)
    } else {
        new_without_room(state, room, hint)
    }
}
