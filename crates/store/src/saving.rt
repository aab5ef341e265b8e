// The numbers of a check, written at the front of a store.

ghost use Rattle.std.specs.Prelude.{◌≡◌};
ghost use Rattle.output.specs.Output.{stored};
ghost use Rattle.words.specs.Words.{words_bytes};
ghost use Rattle.store.specs.Numbers.{set_in, open_number, numbers_of};

use crate::{NUMBERS, State};
use sets::Set;

// The Option is written as 1 or 0 and the numbers of a set: callers in C lend the store, and its layout has all its numbers, whether a set
// is open or not. Where none is, those of the set say nothing.
#[tactic(auto, unfolding(crate::specs::Numbers::set_in))]
fn set_in(current: Option<Set>) -> Set
    ensures { result ≡ set_in current }
{
    current.unwrap_or_default()
}

// 1 where a set is open.
#[tactic(auto, unfolding(crate::specs::Numbers::open_number))]
fn open_number(current: Option<Set>) -> u64
    ensures { result ≡ open_number current }
{
    u64::from(current.is_some())
}

#[tactic(auto, unfolding(crate::specs::Numbers::numbers_of))]
fn numbers_of(s: State) -> [u64; NUMBERS]
    ensures { result ≡ numbers_of s }
{
    let w = s.pass;
    let current = w.sets.current;
    let set = set_in(current);
    let h = set.first;
    [
        u64::from(s.phase),
        s.mode,
        s.room,
        s.gsi as u64,
        s.part as u64,
        s.count as u64,
        w.refusal.number,
        w.refusal.place,
        w.refusal.offset,
        u64::from(w.sets.least),
        open_number(current),
        set.place,
        u64::from(h.sgn),
        u64::from(h.sn),
        u64::from(h.ebn),
        u64::from(h.cs),
        u64::from(h.tci.hours),
        u64::from(h.tci.minutes),
        u64::from(h.tci.seconds),
        u64::from(h.tci.frames),
        u64::from(h.tco.hours),
        u64::from(h.tco.minutes),
        u64::from(h.tco.seconds),
        u64::from(h.tco.frames),
        u64::from(h.vp),
        u64::from(h.jc),
        u64::from(h.cf),
        u64::from(set.last),
        set.size as u64,
        w.counts.subtitles,
        w.counts.comments,
        w.counts.continuations,
        w.counts.users,
        s.tally.at as u64,
        s.tally.spans as u64,
    ]
}

// The numbers of a check are written at the front of the store. Inline, or each call would copy them first.
#[inline(always)]
pub fn put_state(store: &mut [u8], s: State)
    ensures { store.new ≡ stored store.old 0 (words_bytes (numbers_of s)) }
{
    words::put_words(store, &numbers_of(s));
}
