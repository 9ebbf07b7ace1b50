// A run's tally: lent, and changed by each command.
ghost use Rattle.std.specs.Prelude.{◌≡◌};
ghost use Rattle.types.specs.Values.{tallied};

use types::reply::Tally;

// One more command, with this refusal or 0.
pub fn count(tally: &mut Tally, refusal: u8)
    ensures { tally.new ≡ tallied tally.old refusal }
{
    *tally = (*tally).counted(refusal);
}

// The same for a caller that holds its tally by value: it is lent for the command, and comes back.
pub fn count_held(tally: Tally, refusal: u8) -> Tally
    ensures { result ≡ tallied tally refusal }
{
    let mut lent = tally;
    count(&mut lent, refusal);
    lent
}
