// 01's number and five values for what a call returns.
#![tactic(auto, unfolding(rules::specs::Commands::reply, rules::specs::Answers::touch_reply, rules::specs::Answers::touch_number_reply, types::specs::Values::placed_reply, types::specs::Values::verified_reply, types::specs::Values::stats_reply, types::specs::Values::bit))]

ghost use Rattle.std.specs.Prelude.{◌≡◌, ℕ, Bool, Option, Result};
ghost use Rattle.types.specs.declared.entry.CacheEntry.{CacheEntry as Entry};
ghost use Rattle.rules.specs.Answers.{said, number_said, done, touch_reply, touch_number_reply};
ghost use Rattle.rules.specs.Calls.{Answer, Hinted, VerifiedDone, EntryRemoved, KeyHeld, RowsRemoved, StatsGiven, ExpiryGiven};
ghost use Rattle.rules.specs.Commands.{reply};

use types::entry::CacheEntry;
use types::placed::{Placed, VerifiedInsert};
use types::refusal::Refusal;
use types::reply::{Reply, refused, says};
use types::stats::CacheStats;

// What a call that was done tells: an answer of the rules, and the five values that stand for it.
pub trait Told {
    ghost answer: { Self → Answer };

    fn reply(self) -> Reply
        ensures { result ≡ reply (answer self) };
}

// A hint: outcome, added weight, segment, unfunded, examined.
impl Told for Placed {
    ghost answer = { Hinted };

    fn reply(self) -> Reply {
        says(
            u64::from(self.outcome),
            self.added_weight,
            u64::from(self.segment),
            u64::from(self.unfunded),
            self.examined,
        )
    }
}

// A verified insert: 0, weight, 0, 0, examined.
impl Told for VerifiedInsert {
    ghost answer = { VerifiedDone };

    fn reply(self) -> Reply {
        says(0, self.weight, 0, 0, self.examined)
    }
}

// remove: found, whatever the entry is.
impl Told for Option<CacheEntry> {
    ghost answer = { EntryRemoved };

    fn reply(self) -> Reply {
        says(u64::from(self.is_some()), 0, 0, 0, 0)
    }
}

// demote: whether the key is held.
impl Told for bool {
    ghost answer = { KeyHeld };

    fn reply(self) -> Reply {
        says(u64::from(self), 0, 0, 0, 0)
    }
}

// A sweep: how many rows were removed.
impl Told for u64 {
    ghost answer = { RowsRemoved };

    fn reply(self) -> Reply {
        says(self, 0, 0, 0, 0)
    }
}

// The next expiry: whether a row is held, and the time.
impl Told for Option<u64> {
    ghost answer = { ExpiryGiven };

    fn reply(self) -> Reply {
        says(u64::from(self.is_some()), self.unwrap_or(0), 0, 0, 0)
    }
}

impl Told for CacheStats {
    ghost answer = { StatsGiven };

    fn reply(self) -> Reply {
        says(
            self.entries,
            self.max_entries,
            self.expired,
            self.avg_age_ms,
            0,
        )
    }
}

// fresh, clear and clear_path_mtu tell no more than that they are done.
impl Told for () {
    ghost answer = { done };

    fn reply(self) -> Reply {
        says(0, 0, 0, 0, 0)
    }
}

pub fn reply<T: Told>(answer: Result<T, Refusal>) -> Reply
    ensures { result ≡ reply (said T.answer answer) }
{
    match answer {
        Ok(value) => value.reply(),
        Err(refusal) => Reply::from(refusal),
    }
}

// The same where a refusal is told by its number, which may be any.
pub fn number_reply<T: Told>(answer: Result<T, u8>) -> Reply
    ensures { result ≡ reply (number_said T.answer answer) }
{
    match answer {
        Ok(value) => value.reply(),
        Err(number) => refused(number),
    }
}

// touch: found, and the length.
pub fn touch_reply(answer: Result<Option<u64>, Refusal>) -> Reply
    ensures { result ≡ touch_reply answer }
{
    match answer {
        Ok(Some(len)) => says(1, len, 0, 0, 0),
        Ok(None) => says(0, 0, 0, 0, 0),
        Err(refusal) => Reply::from(refusal),
    }
}

// The same where a refusal is told by its number.
pub fn touch_number_reply(answer: Result<Option<u64>, u8>) -> Reply
    ensures { result ≡ touch_number_reply answer }
{
    match answer {
        Ok(Some(len)) => says(1, len, 0, 0, 0),
        Ok(None) => says(0, 0, 0, 0, 0),
        Err(n) => refused(n),
    }
}
