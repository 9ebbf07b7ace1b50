// The command stream for a driver in another language: runs as the crate `stream` proves them, with what the sender has (the pending
// path) as bytes and the run's end as numbers. Thin; the calls have the contracts.
#![tactic(auto)]

use entries::addr::load_coord_entry;
use raw::layout::{BYTE, ELEMENT, PATH};
use std::array;
use stream::run::Ran;
use types::coord::{PLACES, Path};
use types::reply::Tally;
use types::sender::Sender;

// A length, and the places.
const PENDING: usize = PATH;

// Used, written, why it stopped, commands done, commands refused.
const REPORT: usize = 5;

fn load(pending: &[u8]) -> Sender {
    if pending.len() < PENDING {
        return Sender::new();
    }
    Sender {
        pending: Path {
            entries: array::from_fn(|k| load_coord_entry(pending, BYTE + k * ELEMENT)),
            len: usize::from(pending[0]),
        },
    }
}

fn store(pending: &mut [u8], sender: Sender) {
    let path = sender.pending;
    if PENDING <= pending.len() && path.len <= PLACES {
        rows::values::store_path(pending, 0, path);
    }
}

fn told(ran: Ran) -> [u64; REPORT] {
    [
        ran.used as u64,
        ran.written as u64,
        ran.stop as u64,
        ran.tally.done,
        ran.tally.refused,
    ]
}

#[unsafe(no_mangle)]
pub extern "C" fn stream_run(
    state: &mut [u8],
    pending: &mut [u8],
    input: &[u8],
    last: u8,
    output: &mut [u8],
    report: &mut [u64],
) {
    let Some(report) = report.first_chunk_mut::<REPORT>() else {
        return;
    };
    if pending.len() < PENDING {
        return;
    }
    let [_, _, _, done, refused] = *report;
    let sender = load(pending);
    let tally = Tally { done, refused };
    let ran = stream::run::run(state, sender, tally, input, last != 0, output);
    store(pending, ran.sender);
    *report = told(ran);
}
