// A held key: 3. verified, 4. in probation, 5. in main.
ghost use Rattle.std.specs.Prelude.{◌≡◌, true, false, cond, ◌-◌, ◌≤◌};
ghost use Rattle.types.specs.declared.placed.HintOutcome.TheVariants.{Changed, Unchanged};
ghost use Rattle.rules.specs.Rows.{in_main};
ghost use Rattle.rules.specs.Refusals.{last_seq};
ghost use Rattle.rules.specs.Memory.{view_rows};
ghost use Rattle.placement.specs.Operands.{refile_held, promote, place_probation, grow, place_main, place_held};
ghost use Rattle.placement.specs.Placements.{Placing, Holds, HeldHint, row_in};

use crate::new_key::reject;
use crate::operands::Hint;
use entries::new_entry::updated_entry;
use entries::path::path_is;
use entries::times::is_verified;
use filing::file::file_unchanged;
use filing::in_room::file_in_room;
use filing::refile::update_in_place;
use memory::codes::{BY_USE, PROBATION};
use memory::row::row_at;
use memory::rows::remove_row;
use room::victims::make_room;
use rows::saved::save_row;
use types::placed::{HintOutcome, Placed, Segment};

// The hint's key stands in row i of n; its outcome where the row is written.
#[derive(Clone, Copy)]
struct Held {
    n: usize,
    i: usize,
    outcome: HintOutcome,
}

// Unchanged where the paths are the same, else Changed.
fn outcome_of(same: bool) -> HintOutcome
    ensures { result ≡ cond same Unchanged Changed }
{
    if same {
        HintOutcome::Unchanged
    } else {
        HintOutcome::Changed
    }
}

// Updated and refiled at this weight, with nothing added.
#[tactic(auto, using(room::proofs::RoomToFile::laid_out, filing::proofs::FiledInRoom::rows_there), unfolding(rules::specs::Placement::place_result, crate::specs::Operands::refile_held, crate::specs::Operands::held_outcome, crate::specs::Operands::update))]
fn refile_held(
    state: &mut [u8],
    held: Held,
    hint: &Hint<'_>,
    weight: u8,
    segment: Segment,
) -> Placed
    requires { HeldHint hint.now held state.old }
    ensures { Placing (refile_held hint.now weight segment held.i (view_rows held.n state.old)) result state.new }
{
    update_in_place(
        state, held.n, held.i, *hint.path, hint.time, hint.ttl, weight,
    );
    Placed {
        outcome: held.outcome,
        added_weight: 0,
        segment,
        unfunded: false,
        examined: 0,
    }
}

// Covered: taken out, updated, and with room made filed in main, or without room back in probation.
#[tactic(auto, using(room::proofs::RoomToFile::laid_out, filing::proofs::RoomSought::room_asks, crate::proofs::HeldKeys::weight_stored, crate::proofs::HeldKeys::taken_sound, rules::proofs::Others::take_out_seq))]
fn promote(state: &mut [u8], held: Held, hint: &Hint<'_>, weight: u8) -> Placed
    requires { HeldHint hint.now held state.old × (in_main (row_in held.n held.i state.old) ≡ false) }
    ensures { Placing (promote hint.now weight held.i (view_rows held.n state.old)) result state.new }
{
    let e = updated_entry(
        &row_at(state, held.n, held.i),
        *hint.path,
        hint.time,
        hint.ttl,
    );
    remove_row(state, held.n, held.i);
    let room = make_room(state, held.n - 1, weight as u64, hint.time);
    // The charge is added only where room was made.
    let (place, segment, added) = if room.made {
        (BY_USE, Segment::Main, weight as u64)
    } else {
        (PROBATION, Segment::Probation, 0)
    };
    file_in_room(state, room.rows, room.victim, hint.key, e, weight, place);
    Placed {
        outcome: held.outcome,
        added_weight: added,
        segment,
        unfunded: false,
        examined: room.examined,
    }
}

// 4. In probation.
#[tactic(auto, using(room::proofs::RoomToFile::laid_out, crate::proofs::HeldKeys::probation_covered, crate::proofs::HeldKeys::probation_uncovered))]
fn place_probation(state: &mut [u8], held: Held, hint: &Hint<'_>) -> Placed
    requires { HeldHint hint.now held state.old × (in_main (row_in held.n held.i state.old) ≡ false) }
    ensures { Placing (place_probation hint.now held.i (view_rows held.n state.old)) result state.new }
{
    let w = hint.weight().max(row_at(state, held.n, held.i).weight());
    if hint.funding.covers(w as u64) {
        promote(state, held, hint, w)
    } else {
        refile_held(state, held, hint, w, Segment::Probation)
    }
}

// Growth to this weight: row out, room sought for it; without room an unstated one goes back unchanged but newly stamped.
#[tactic(auto, using(room::proofs::RoomToFile::laid_out, filing::proofs::RoomSought::room_asks, crate::proofs::HeldKeys::weight_stored, crate::proofs::HeldKeys::taken_sound, rules::proofs::Others::take_out_seq))]
fn grow(state: &mut [u8], held: Held, hint: &Hint<'_>, weight: u8, added: u64) -> Placed
    requires { HeldHint hint.now held state.old × (in_main (row_in held.n held.i state.old) ≡ true) × (added ≡ weight - (row_in held.n held.i state.old).weight) }
    ensures { Placing (grow hint.now weight held.i (view_rows held.n state.old)) result state.new }
{
    let e = updated_entry(
        &row_at(state, held.n, held.i),
        *hint.path,
        hint.time,
        hint.ttl,
    );
    let saved = save_row(state, held.n, held.i);
    remove_row(state, held.n, held.i);
    let w = weight as u64;
    let room = make_room(state, held.n - 1, w, hint.time);
    if room.made | hint.stated {
        file_in_room(state, room.rows, room.victim, hint.key, e, weight, BY_USE);
        Placed {
            outcome: held.outcome,
            added_weight: added,
            segment: Segment::Main,
            unfunded: false,
            examined: room.examined,
        }
    } else {
        file_unchanged(state, room.rows, hint.key, saved);
        reject(false, room.examined)
    }
}

// 5. In main.
#[tactic(auto, using(room::proofs::RoomToFile::laid_out, crate::proofs::HeldKeys::main_kept, crate::proofs::HeldKeys::main_grown, crate::proofs::HeldKeys::main_rejected, crate::proofs::HeldKeys::rejected_there))]
fn place_main(state: &mut [u8], held: Held, hint: &Hint<'_>) -> Placed
    requires { HeldHint hint.now held state.old × (in_main (row_in held.n held.i state.old) ≡ true) }
    ensures { Placing (place_main hint.now held.i (view_rows held.n state.old)) result state.new }
{
    let w = hint.weight();
    let old = row_at(state, held.n, held.i).weight();
    if w <= old {
        return refile_held(state, held, hint, old, Segment::Main);
    }
    let added = w as u64 - old as u64;
    if !hint.funding.covers(added) {
        return reject(true, 0);
    }
    grow(state, held, hint, w, added)
}

// 3. A verified key is Rejected, unless stated and differing. The paths are compared at most once, and not for a verified key that
// isn't stated.
#[tactic(auto, using(room::proofs::RoomToFile::laid_out, crate::proofs::HeldKeys::stays_unstated, crate::proofs::HeldKeys::stays_same, crate::proofs::HeldKeys::goes_to_main, crate::proofs::HeldKeys::goes_to_probation, crate::proofs::HeldKeys::main_of, crate::proofs::HeldKeys::main_not, crate::proofs::HeldKeys::rejected_there), unfolding(crate::specs::Operands::held_outcome, rules::specs::Placement::held_outcome))]
pub fn place_held(state: &mut [u8], n: usize, i: usize, hint: &Hint<'_>) -> Placed
    requires { Holds hint.now.key n i state.old × ((view_rows n state.old).seq ≤ last_seq) }
    ensures { Placing (place_held hint.now i (view_rows n state.old)) result state.new }
{
    let row = row_at(state, n, i);
    let verified = is_verified(&row, hint.time);
    if verified & !hint.stated {
        return reject(false, 0);
    }
    let same = path_is(&row, hint.path);
    if verified & same {
        return reject(false, 0);
    }
    let held = Held {
        n,
        i,
        outcome: outcome_of(same),
    };
    if row.place() < PROBATION {
        place_main(state, held, hint)
    } else {
        place_probation(state, held, hint)
    }
}
