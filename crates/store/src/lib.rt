// The store of a check that is fed in lumps: bytes that the caller lends. It holds the numbers of the check, the looks in use, the GSI block, the
// block that is not whole yet, and the text of the open set.

#![tactic(auto)]

ghost use Rattle.std.specs.Prelude.{◌≡◌};

use checking::Pass;
use meaning::{BLOCK_SIZE, GSI_SIZE, Look};
use sets::Sets;
use text::Tally;

mod loading;
mod saving;
mod testing;

pub use loading::{state_in, state_of};
pub use saving::put_state;
pub use testing::is_check;

// What the first number of a store tells. Any store has one: `Other` is that of a store that holds no check.
#[derive(Clone, Copy, PartialEq, Eq)]
pub enum Phase {
    Open,
    Closed,
    Other(u64),
}

// The numbers of a check: whether it is open or closed, break mode, room, the bytes of the GSI block so far and of the block that is not whole yet,
// the whole blocks, pass one over them, and how much it laid. Sizes and no slices, and a number for the mode: they are numbers of a store that
// callers in C lend.
#[derive(Clone, Copy)]
pub struct State {
    pub phase: Phase,
    pub mode: u64,
    pub room: u64,
    pub gsi: usize,
    pub part: usize,
    pub count: usize,
    pub pass: Pass,
    pub tally: Tally,
}

const NUMBERS: usize = 35;

// Where the parts stand.
pub const MARKS_AT: usize = words::WORD_SIZE * NUMBERS;

pub const GSI_AT: usize = MARKS_AT + Look::COUNT;

pub const PART_AT: usize = GSI_AT + GSI_SIZE;

pub const TEXT_AT: usize = PART_AT + BLOCK_SIZE;

pub const SIZE: usize = TEXT_AT + Sets::ROOM;

// The most blocks that TNB can count.
pub const MOST_BLOCKS: usize = 99999;

// The phases spell STLCHECK and STLCLOSE in a store.
const OPEN: u64 = 5423254552953246803;

const CLOSED: u64 = 4995423600649196627;

impl From<Phase> for u64 {
    ghost use Rattle.store.specs.Phases.{phase_number};

    ghost from_gives = { λ p n. n ≡ phase_number p };

    #[tactic(auto, using(crate::proofs::Phases::open_phase_is, crate::proofs::Phases::closed_phase_is), unfolding(crate::specs::Phases::phase_number))]
    fn from(phase: Phase) -> u64 {
        match phase {
            Phase::Open => OPEN,
            Phase::Closed => CLOSED,
            Phase::Other(number) => number,
        }
    }
}

impl From<u64> for Phase {
    ghost use Rattle.store.specs.Phases.{phase_from};

    ghost from_gives = { λ n p. p ≡ phase_from n };

    #[tactic(auto, using(crate::proofs::Phases::phase_or_other))]
    fn from(number: u64) -> Phase {
        Phase::of(number).unwrap_or(Phase::Other(number))
    }
}

impl Phase {
    ghost use Rattle.store.specs.Phases.{phase_in};

    // The phase that a number spells, if it spells one. An Option and no TryFrom: there is nothing to say of a number that spells none.
    #[tactic(auto, using(crate::proofs::Phases::open_phase_is, crate::proofs::Phases::closed_phase_is), unfolding(crate::specs::Phases::phase_in, crate::specs::Phases::phase_from))]
    pub(crate) fn of(number: u64) -> Option<Phase>
        ensures { result ≡ phase_in number }
    {
        match number {
            OPEN => Some(Phase::Open),
            CLOSED => Some(Phase::Closed),
            _ => None,
        }
    }
}
