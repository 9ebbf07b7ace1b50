// The pass over the rows.
ghost use Rattle.std.specs.Prelude.{◌≡◌, ◌+◌, ◌*◌, ◌^◌, ◌≤◌, ◌<◌, length};
ghost use Rattle.rules.specs.Memory.{view_rows};
ghost use Rattle.rules.specs.Layout.{head_size, row_size};
ghost use Rattle.rules.specs.Records.{max_rows};
ghost use Rattle.state.specs.Parts.{tallied, rows_sound};

use crate::key::key_rises;
use crate::row::row_is_sound;
use memory::codes::PROBATION;
use memory::row::row_at;

// Over the rows passed: main rows, probation rows, the weight of the main rows.
#[derive(Clone, Copy)]
pub struct Totals {
    pub main: u64,
    pub probation: u64,
    pub weight: u64,
}

#[tactic(auto, unfolding(crate::specs::Parts::tallied))]
fn counted(t: Totals, place: u8, weight: u8) -> Totals
    requires { (t.main < 2 ^ 32) × ((t.probation < 2 ^ 32) × (t.weight < 2 ^ 32)) }
    ensures { result ≡ tallied t place weight }
{
    if place < PROBATION {
        return Totals {
            main: t.main + 1,
            probation: t.probation,
            weight: t.weight + weight as u64,
        };
    }
    if place == PROBATION {
        return Totals {
            main: t.main,
            probation: t.probation + 1,
            weight: t.weight,
        };
    }
    t
}

// At most 1,024 rows, so the totals stay small. main and probation are the bounds M and Q; seq and stored are the head's.
#[tactic(auto, using(rules::proofs::Foreign::view_length, crate::proofs::PassLaws::passing_end))]
pub fn rows_are_sound(
    state: &[u8],
    n: usize,
    seq: u64,
    main: u64,
    probation: u64,
    stored: u64,
) -> bool
    requires { (n ≤ max_rows) × (head_size + n * row_size ≤ length state.now) }
    ensures { result ≡ rows_sound main probation seq stored (view_rows n state.now).rows }
{
    let mut t = Totals {
        main: 0,
        probation: 0,
        weight: 0,
    };
    for i in 0..n {
        let row = row_at(state, n, i);
        if !row_is_sound(&row, seq) {
            return false;
        }
        let j = i + 1;
        if j < n && !key_rises(&row, &row_at(state, n, j)) {
            return false;
        }
        let place = row.place();
        let weight = row.weight();
        t = counted(t, place, weight);
    }
    (t.main <= main) & ((t.probation <= probation) & (stored == t.weight))
}
