// Room in main. Victims are set aside: one alone is left for the row that takes its place, several leave together, and without room
// all go back.
ghost use Rattle.std.specs.Prelude.{◌≡◌, true, false, not, map, suc, ◌+◌, ◌*◌, ◌≤◌, ◌<◌, length, None};
ghost use Rattle.std.specs.Option.{ForSome};
ghost use Rattle.rules.specs.Records.{weight_bound, aside, max_rows};
ghost use Rattle.rules.specs.Rows.{at_place, change_row, keep_rows, with_rows, with_only_rows, total, main_count};
ghost use Rattle.rules.specs.Sound.{sound};
ghost use Rattle.rules.specs.Room.{main_visits, has_room, at_new_place, put_back, choose_victims};
ghost use Rattle.rules.specs.Memory.{capacity, view_rows};
ghost use Rattle.rules.specs.Layout.{head_size, number_limit, row_size};
ghost use Rattle.stamps.specs.Walked.{walk_from, MainIs};
ghost use Rattle.retention.specs.Sweep.{PathsFit};
ghost use Rattle.room.specs.Rooms.{chosen_of, SetAside, Settled};

use crate::closed_form::{cut_to_bound, has_room};
use memory::codes::{ASIDE, BY_USE};
use memory::row::row_at;
use stamps::lowest::{LowestOfMain, lowest_of_main};
use stamps::walk::next_victim;

// Victims that are enough, set aside: the main rows that are left and their weight, and the row that was set aside last.
#[derive(Clone, Copy)]
struct Chosen {
    left: u64,
    stored: u64,
    last: usize,
}

// The victims, where there are enough, and the keys taken up.
#[derive(Clone, Copy)]
struct Choice {
    chosen: Option<Chosen>,
    examined: u64,
}

// A row that is left for the row that takes its place, and the weight that is stored without it.
#[derive(Clone, Copy)]
pub struct Victim {
    pub at: usize,
    pub stored: u64,
}

// Whether room was made in main, the rows there are, and the keys taken up. Where one victim is enough, it is left where it
// is, counted among the rows.
#[derive(Clone, Copy)]
pub struct Room {
    pub made: bool,
    pub rows: usize,
    pub victim: Option<Victim>,
    pub examined: u64,
}

// Row i at another place, under the stamp that it has.
#[tactic(auto, using(crate::proofs::RowsAside::placed))]
fn set_place(state: &mut [u8], n: usize, i: usize, place: u8)
    requires { (i < n) × (head_size + n * row_size ≤ length state.old) }
    ensures { view_rows n state.new ≡ with_rows (change_row (at_new_place place) i (view_rows n state.old).rows) (view_rows n state.old) }
{
    let row = row_at(state, n, i);
    let first = row.stamp_first();
    let seq = row.stamp_seq();
    memory::row::set_stamp(state, n, i, place, first, seq);
}

// Victims are set aside until there is room for w, or none is left. At the start there is no room, and `lowest` is of the rows as they
// then are.
fn choose_victims(state: &mut [u8], n: usize, lowest: LowestOfMain, w: u64, time: u64) -> Choice
    requires size { head_size + n * row_size ≤ length state.old }
    requires sound { sound (capacity state.old) (view_rows n state.old) ≡ true }
    requires stamps { (view_rows n state.old).seq + total (main_visits time) (view_rows n state.old).rows < number_limit }
    requires lowest { MainIs lowest (view_rows n state.old).rows }
    requires bound { w ≤ weight_bound (view_rows n state.old).max_entries }
    requires full { has_room w (view_rows n state.old) ≡ false }
    ensures chosen { chosen_of result (view_rows n state.new) ≡ choose_victims (suc (main_count (view_rows n state.old))) time w (walk_from (view_rows n state.old) 0) }
    ensures aside { ForSome result.chosen (λ c. SetAside lowest.count c (view_rows n state.new)) }
{
    let max = memory::head::max_entries(state);
    let mut stored = memory::head::stored_weight(state);
    let mut left = lowest.count;
    let mut main = lowest;
    let mut examined: u64 = 0;
    loop {
        let sought = next_victim(state, n, time, main);
        examined += sought.examined;
        let found = sought.found;
        match found {
            None => {
                return Choice {
                    chosen: None,
                    examined,
                };
            }
            Some(i) => {
                left -= 1;
                stored -= row_at(state, n, i).weight() as u64;
                set_place(state, n, i, ASIDE);
                if has_room(max, left, stored, w) {
                    let chosen = Chosen {
                        left,
                        stored,
                        last: i,
                    };
                    return Choice {
                        chosen: Some(chosen),
                        examined,
                    };
                }
                main = lowest_of_main(state, n);
            }
        }
    }
}

// Row i goes back if it was set aside.
#[tactic(auto, using(crate::proofs::RowsAside::back_here, crate::proofs::RowsAside::back_not_here))]
fn put_row_back(state: &mut [u8], n: usize, i: usize)
    requires { (i < n) × (head_size + n * row_size ≤ length state.old) }
    ensures { view_rows n state.new ≡ with_rows (change_row put_back i (view_rows n state.old).rows) (view_rows n state.old) }
{
    if row_at(state, n, i).place() == ASIDE {
        set_place(state, n, i, BY_USE);
    }
}

// The rows that were set aside go back.
#[tactic(auto, using(crate::proofs::RowsAside::backed_start, crate::proofs::RowsAside::backed_turn, crate::proofs::RowsAside::backed_end))]
fn put_back(state: &mut [u8], n: usize)
    requires { head_size + n * row_size ≤ length state.old }
    ensures { view_rows n state.new ≡ with_rows (map put_back (view_rows n state.old).rows) (view_rows n state.old) }
{
    for i in 0..n {
        put_row_back(state, n, i);
    }
}

// The rows that were set aside leave; how many rows stay.
fn drop_aside(state: &mut [u8], n: usize) -> usize
    requires { (n ≤ max_rows) × (head_size + n * row_size ≤ length state.old) × PathsFit (view_rows n state.old).rows }
    ensures { (result ≤ n) × (view_rows result state.new ≡ with_only_rows (keep_rows (λ x. not (at_place aside x)) (view_rows n state.old).rows) (view_rows n state.old)) }
{
    retention::rows::retain_rows(state, n, |row| row.place() == ASIDE)
}

// There is room: no victim is sought.
fn room_there(rows: usize) -> Room
    ensures { result ≡ record { made = true; rows = rows; victim = None; examined = 0 } }
{
    Room {
        made: true,
        rows,
        victim: None,
        examined: 0,
    }
}

// Room for w in main; where one victim is enough, it is left aside. Where there is room nothing is written, and main is not counted
// where all rows are fewer than max_entries; where room can't be made no row leaves.
#[tactic(auto, using(crate::proofs::ClosedForm::most, crate::proofs::ClosedForm::bounds_read, crate::proofs::RoomSettled::stored_asks, crate::proofs::RoomSettled::full, crate::proofs::RoomSettled::main_there, crate::proofs::RoomSettled::rows_there, crate::proofs::RoomSettled::stand_aside, crate::proofs::RoomSettled::all_back))]
pub fn make_room(state: &mut [u8], n: usize, w: u64, time: u64) -> Room
    requires { (head_size + n * row_size ≤ length state.old) × (sound (capacity state.old) (view_rows n state.old) ≡ true) × ((view_rows n state.old).seq + total (main_visits time) (view_rows n state.old).rows < number_limit) }
    ensures { Settled time w n result state.old state.new }
{
    let max = memory::head::max_entries(state);
    let cut = cut_to_bound(w, max);
    let stored = memory::head::stored_weight(state);
    if has_room(max, n as u64, stored, cut) {
        return room_there(n);
    }
    let lowest = lowest_of_main(state, n);
    let count = lowest.count;
    if has_room(max, count, stored, cut) {
        return room_there(n);
    }
    let choice = choose_victims(state, n, lowest, cut, time);
    let examined = choice.examined;
    match choice.chosen {
        None => {
            put_back(state, n);
            Room {
                made: false,
                rows: n,
                victim: None,
                examined,
            }
        }
        Some(chosen) => {
            if count - chosen.left == 1 {
                let victim = Victim {
                    at: chosen.last,
                    stored: chosen.stored,
                };
                return Room {
                    made: true,
                    rows: n,
                    victim: Some(victim),
                    examined,
                };
            }
            let rows = drop_aside(state, n);
            Room {
                made: true,
                rows,
                victim: None,
                examined,
            }
        }
    }
}
