// The numbers of a check, read from the front of a store.

ghost use Rattle.std.specs.Prelude.{◌≡◌, ◌+◌, ◌%◌, ◌<◌};
ghost use Rattle.store.specs.Layout.{number_count, numbers_in};
ghost use Rattle.store.specs.Numbers.{time_from, header_from, set_from, current_from, pass_from, state_from};
ghost use Rattle.store.specs.Stores.{state_of, state_in};

use crate::testing::is_check;
use crate::{NUMBERS, Phase, SIZE, State};
use checking::Pass;
use meaning::{Counts, Header, Refusal, Time};
use sets::{Set, Sets};
use text::Tally;
use words::word_at;

// The numbers at the front of a store. Their places are those of `Numbers.numbers_of`. The functions below read by place: an array pattern
// has to name, or to pass over, all the numbers before those of a part.
fn numbers_in(store: &[u8]) -> [u64; NUMBERS]
    ensures { result ≡ numbers_in store.now }
{
    let mut numbers = [0; NUMBERS];
    // A loop and no `array::from_fn`: nothing is known of the store that its closure holds at a later number.
    for i in 0..NUMBERS {
        numbers[i] = word_at(store, i);
    }
    numbers
}

// Any number of a store is read, so it is cut to its width and not tested.
fn byte(n: u64) -> u8
    ensures { result ≡ n % 256 }
{
    (n % 256) as u8
}

#[tactic(auto, unfolding(crate::specs::Numbers::time_from))]
fn time_from(numbers: &[u64; NUMBERS], i: usize) -> Time
    requires { 3 + i < number_count }
    ensures { result ≡ time_from numbers.now i }
{
    Time {
        hours: byte(numbers[i]),
        minutes: byte(numbers[1 + i]),
        seconds: byte(numbers[2 + i]),
        frames: byte(numbers[3 + i]),
    }
}

#[tactic(auto, unfolding(crate::specs::Numbers::header_from))]
fn header_from(numbers: &[u64; NUMBERS]) -> Header
    ensures { result ≡ header_from numbers.now }
{
    Header {
        sgn: byte(numbers[12]),
        sn: (numbers[13] % 65536) as u16,
        ebn: byte(numbers[14]),
        cs: byte(numbers[15]),
        tci: time_from(numbers, 16),
        tco: time_from(numbers, 20),
        vp: byte(numbers[24]),
        jc: byte(numbers[25]),
        cf: byte(numbers[26]),
    }
}

#[tactic(auto, unfolding(crate::specs::Numbers::set_from))]
fn set_from(numbers: &[u64; NUMBERS]) -> Set
    ensures { result ≡ set_from numbers.now }
{
    Set {
        place: numbers[11],
        first: header_from(numbers),
        last: byte(numbers[27]),
        size: numbers[28] as usize,
    }
}

#[tactic(auto, unfolding(crate::specs::Numbers::current_from))]
fn current_from(numbers: &[u64; NUMBERS]) -> Option<Set>
    ensures { result ≡ current_from numbers.now }
{
    (numbers[10] == 1).then_some(set_from(numbers))
}

#[tactic(auto, unfolding(crate::specs::Numbers::pass_from))]
fn pass_from(numbers: &[u64; NUMBERS]) -> Pass
    ensures { result ≡ pass_from numbers.now }
{
    Pass {
        refusal: Refusal {
            number: numbers[6],
            place: numbers[7],
            offset: numbers[8],
        },
        sets: Sets {
            least: (numbers[9] % 4294967296) as u32,
            current: current_from(numbers),
        },
        counts: Counts {
            subtitles: numbers[29],
            comments: numbers[30],
            continuations: numbers[31],
            users: numbers[32],
        },
    }
}

// The numbers of a check in this phase.
#[tactic(auto, unfolding(crate::specs::Numbers::state_from))]
fn state_from(phase: Phase, numbers: &[u64; NUMBERS]) -> State
    ensures { result ≡ state_from phase numbers.now }
{
    State {
        phase,
        mode: numbers[1],
        room: numbers[2],
        gsi: numbers[3] as usize,
        part: numbers[4] as usize,
        count: numbers[5] as usize,
        pass: pass_from(numbers),
        tally: Tally {
            at: numbers[33] as usize,
            spans: numbers[34] as usize,
        },
    }
}

// The numbers of a check, from the front of any store.
pub fn state_of(store: &[u8]) -> State
    ensures { result ≡ state_of store.now }
{
    let numbers = numbers_in(store);
    state_from(Phase::from(numbers[0]), &numbers)
}

// The numbers at the front of a store, if it is that of a check.
#[tactic(auto, using(crate::proofs::Sound::state_tested, crate::proofs::Sound::other_size))]
pub fn state_in(store: &[u8]) -> Option<State>
    ensures { result ≡ state_in store.now }
{
    // The size first: of a store of that size the compiled code reads all numbers at once, with no test for each.
    if store.len() != SIZE {
        return None;
    }
    let state = state_of(store);
    is_check(store.len(), state).then_some(state)
}
