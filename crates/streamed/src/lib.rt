// A check that is fed a file in lumps, and gives the converter's answer on the joined file at the close. What it knows stands in a store that
// the caller lends.

#![tactic(auto)]

ghost use Rattle.std.specs.Prelude.{◌≡◌, false, length};
ghost use Rattle.store.specs.Stores.{check_of};
ghost use Rattle.streamed.specs.Checks.{begun_state, opened_in, fed_in, closed_in, answer_in, is_running, opened_store, store_closed};

use checking::Pass;
use meaning::{Answer, Look, Refusal};
use store::{Phase, State};
use text::Tally;

mod blocks;
mod check;
mod parts;

use check::StoredCheck;
pub use store::SIZE;

// A store that was never opened is answered as a check opened with break mode 0: rule 1. A constant calls no `Default`, so
// `Refusal::NONE` stands beside the derived one.
const NEVER_OPENED: Refusal = Refusal {
    number: 1,
    ..Refusal::NONE
};

// Before the first lump.
#[tactic(auto, unfolding(meaning::specs::Refusals::no_refusal, meaning::specs::Walk::no_counts))]
fn begun(mode: u64, room: u64) -> State
    ensures { result ≡ begun_state mode room }
{
    State {
        phase: Phase::Open,
        mode,
        room,
        gsi: 0,
        part: 0,
        count: 0,
        pass: Pass::default(),
        tally: Tally::default(),
    }
}

// Starts a check with a break mode and a room on any store of SIZE bytes.
pub fn open_check(store: &mut [u8], mode: u64, room: u64)
    ensures check { check_of store.new ≡ opened_in (length store.old) mode room }
    ensures store { store.new ≡ opened_store mode room store.old }
{
    if store.len() != SIZE {
        return;
    }
    let none = [false; Look::COUNT];
    words::put_flags(store, store::MARKS_AT, &none);
    store::put_state(store, begun(mode, room));
}

// A lump of the file, empty or not. A store that is none of an open check stays as it is.
#[tactic(auto, using(crate::proofs::Calls::held_size, crate::proofs::Calls::held_phase, crate::proofs::Calls::held_sound))]
pub fn feed_check(store: &mut [u8], lump: &[u8])
    ensures check { check_of store.new ≡ fed_in (check_of store.old) lump.now }
    ensures kept { is_running (check_of store.old) ≡ false → store.new ≡ store.old }
{
    let Some(state) = store::state_in(store) else {
        return;
    };
    if state.phase == Phase::Closed {
        return;
    }
    let mut check = StoredCheck { store, state };
    check.feed(lump);
    check.save();
}

// The answer on the file so far. The check is closed then, and the answer stays.
#[tactic(auto, using(crate::proofs::Calls::held_size, crate::proofs::Calls::held_phase, crate::proofs::Calls::held_sound))]
pub fn close_check(store: &mut [u8]) -> Answer
    ensures answer { result ≡ answer_in (check_of store.old) }
    ensures check { check_of store.new ≡ closed_in (check_of store.old) }
    ensures store { store.new ≡ store_closed store.old }
{
    let Some(state) = store::state_in(store) else {
        return convert::answer_refused(NEVER_OPENED, 0);
    };
    let check = StoredCheck { store, state };
    let answer = check.answer();
    if state.phase == Phase::Open {
        let StoredCheck { store, .. } = check;
        words::put_words(store, &[u64::from(Phase::Closed)]);
    }
    answer
}
