// Whether a store holds a check, asked of its size and its numbers: no other part of it is looked at.

ghost use Rattle.std.specs.Prelude.{◌≡◌};
ghost use Rattle.meaning.specs.Walk.{total};
ghost use Rattle.output.specs.Output.{past};
ghost use Rattle.store.specs.Tests.{is_short_set, is_short_current, is_pass_over, is_sound_state, is_check_by};

use crate::{MOST_BLOCKS, Phase, SIZE, State};
use checking::Pass;
use meaning::{BLOCK_SIZE, Counts, GSI_SIZE, TEXT_SIZE};
use sets::{Set, Sets};

// A numbered block is the last so far, and the text is that of no more blocks than there are.
#[tactic(auto, unfolding(crate::specs::Tests::is_short_set))]
fn is_short_set(n: usize, set: Set) -> bool
    ensures { result ≡ is_short_set n set }
{
    let last = usize::from(set.last);
    let size = set.size.min(Sets::ROOM);
    last < Sets::NUMBERED && last < n && size <= TEXT_SIZE * (last + 1)
}

#[tactic(auto, unfolding(crate::specs::Tests::is_short_current))]
fn is_short(n: usize, current: Option<Set>) -> bool
    ensures { result ≡ is_short_current n current }
{
    current.is_none_or(|set| is_short_set(n, set))
}

// The sum of the counts, which no store bounds.
#[tactic(auto, unfolding(output::specs::Output::past, meaning::specs::Walk::total))]
fn total(c: Counts) -> u64
    ensures { result ≡ past 0 (total c) }
{
    c.subtitles
        .saturating_add(c.comments)
        .saturating_add(c.continuations)
        .saturating_add(c.users)
}

// Nothing is asked of a pass that refused.
#[tactic(auto, unfolding(crate::specs::Tests::is_pass_over, meaning::specs::Refusals::is_good))]
fn is_pass_over(n: usize, w: Pass) -> bool
    ensures { result ≡ is_pass_over n w }
{
    w.refusal.number != 0 || total(w.counts) == n as u64 && is_short(n, w.sets.current)
}

#[tactic(auto, unfolding(crate::specs::Tests::is_sound_state))]
fn is_sound(s: State) -> bool
    ensures { result ≡ is_sound_state s }
{
    let short = s.gsi <= GSI_SIZE && s.part < BLOCK_SIZE && s.count <= MOST_BLOCKS + 1;
    let begun = GSI_SIZE <= s.gsi || s.part == 0 && s.count == 0;
    short && begun && is_pass_over(s.count.min(MOST_BLOCKS), s.pass)
}

// Whether a store of this size that has these numbers is that of a check. The phase is asked of its number: `Other` may hold any.
#[tactic(auto, using(crate::proofs::Phases::phase_is_some), unfolding(crate::specs::Tests::is_check_by))]
pub fn is_check(size: usize, s: State) -> bool
    ensures { result ≡ is_check_by size s }
{
    size == SIZE && Phase::of(u64::from(s.phase)).is_some() && is_sound(s)
}
