// Pass one, block by block: each set that closes is judged and its paragraph measured.

ghost use Rattle.std.specs.Prelude.{◌≡◌, List, ℕ};
ghost use Rattle.meaning.specs.Blocks.{blocks};
ghost use Rattle.meaning.specs.Walk.{counted_by, finish};
ghost use Rattle.closed.specs.Body.{body_of, LaysAs};
ghost use Rattle.checking.specs.Passing.{passing, outcome_of, more, counts_after, block_taken, pass_all, pass_after, checked_of};

use crate::Checked;
use closed::{lay, set_rule};
use meaning::{BLOCK_SIZE, Counts, Format, Header, Refusal};
use sets::{PlacedBlock, Sets, Step};
use styles::Marks;
use text::{BodyWriter, Tally};

// The refusal, with number 0 where there is none; the sets; and the counts. The default stands before the first block. A number and no
// Option: `store::state_in` promises the three numbers of any store, also where the first is 0.
#[derive(Clone, Copy, Default)]
pub struct Pass {
    pub refusal: Refusal,
    pub sets: Sets,
    pub counts: Counts,
}

impl Pass {
    // The pass after a block: a broken rule ends it.
    #[tactic(auto, unfolding(crate::specs::Passing::pass_after))]
    fn after(self, taken: Result<Pass, Refusal>) -> Pass
        ensures { result ≡ pass_after self taken }
    {
        match taken {
            Ok(next) => next,
            Err(refusal) => Pass { refusal, ..self },
        }
    }

    // What pass one tells after the last of n blocks, with what was laid and the looks in use: a set still open is refused.
    pub fn checked(self, n: u64, tally: Tally, marks: Marks) -> Result<Checked, Refusal>
        ensures { (text out : List ℕ) → result ≡ checked_of (finish n (outcome_of self text (record { out = out; marks = marks.on; tally = tally }))) }
    {
        if self.refusal.number != 0 {
            return Err(self.refusal);
        }
        Refusal::unless(!self.sets.is_open(), 7, n, 0)?;
        Ok(Checked {
            counts: self.counts,
            tally,
            marks,
        })
    }
}

// One block more, where a set is open or not.
#[tactic(auto, unfolding(output::specs::Output::past))]
fn counted(mut c: Counts, in_set: bool, h: Header) -> Counts
    ensures { result ≡ counted_by more in_set h c }
{
    if h.is_user() {
        c.users = c.users.saturating_add(1);
    } else if in_set {
        c.continuations = c.continuations.saturating_add(1);
    } else if h.is_comment() {
        c.comments = c.comments.saturating_add(1);
    } else {
        c.subtitles = c.subtitles.saturating_add(1);
    }
    c
}

fn counts_after(b: PlacedBlock, w: Pass) -> Counts
    ensures { (text : List ℕ) → result ≡ counts_after b.entry.bytes.now w text }
{
    counted(w.counts, w.sets.is_open(), b.header())
}

// A block in pass one, where nothing is refused yet: the pass after it, or the rule that it breaks.
fn check_block(
    b: PlacedBlock,
    text: &mut [u8],
    body: &mut BodyWriter,
    w: Pass,
) -> Result<Pass, Refusal>
    ensures { LaysAs (passing (pass_after w result) text.new) body.old (block_taken b.entry.f b.entry.place b.entry.bytes.now (passing w text.old (body_of body.old))) body.new }
{
    let counts = counts_after(b, w);
    match b.advance(text, w.sets)? {
        Step::NoRoom => Ok(w),
        Step::Pending(sets) => Ok(Pass { sets, counts, ..w }),
        Step::Closed(set, sets) => {
            set_rule(b.f, text, set)?;
            lay(b.f, text, body, set);
            Ok(Pass { sets, counts, ..w })
        }
    }
}

// The first n blocks of some bytes, from a place on, after the blocks before them. Where the text buffer has no room for a
// block's text, the block changes nothing; Sets::ROOM is enough for any file.
pub fn check_more(
    bytes: &[u8],
    n: usize,
    place: u64,
    f: Format,
    text: &mut [u8],
    body: &mut BodyWriter,
    mut w: Pass,
) -> Pass
    ensures { LaysAs (passing result text.new) body.old (pass_all f place (passing w text.old (body_of body.old)) (blocks n bytes.now)) body.new }
{
    // By number: `check_more` promises any n, also past the bytes' end, where a block is empty.
    for k in 0..n {
        if w.refusal.number != 0 {
            return w;
        }
        let place = place.saturating_add(k as u64);
        let bytes = block::field(bytes, k.saturating_mul(BLOCK_SIZE), BLOCK_SIZE);
        w = w.after(check_block(PlacedBlock { f, place, bytes }, text, body, w));
    }
    w
}
