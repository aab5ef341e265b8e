// The sets of a file, put together block by block: rules 7 to 12. The text of the open set stands at the front of a buffer that
// the caller lends.

#![tactic(auto)]

ghost use Rattle.std.specs.Prelude.{◌≡◌, List, ℕ, ◌+◌, leb};
ghost use Rattle.meaning.specs.Refusals.{first_broken, verdict};
ghost use Rattle.meaning.specs.Blocks.{header_of};
ghost use Rattle.meaning.specs.Sets.{close_at_last, opening, goes_on, agreement_rules, continuing};
ghost use Rattle.meaning.specs.Walk.{is_open};
ghost use Rattle.sets.specs.Assembling.{set_with, set_of, assembly_of, text_end, step_of, Advances};

use meaning::{Format, Header, Refusal, TEXT_SIZE};

// A set so far: the place and the header of its first block, the EBN of its last, and the size of its text. A size and no slice:
// `store::state_in` reads a set from the numbers of a store that callers in C lend, and the buffer is written on while the set is open.
#[derive(Clone, Copy, Default, PartialEq, Eq)]
pub struct Set {
    pub place: u64,
    pub first: Header,
    pub last: u8,
    pub size: usize,
}

impl Set {
    // The set's text, in the buffer that holds it.
    #[tactic(auto, unfolding(crate::specs::Assembling::set_with, crate::specs::Assembling::set_of, meaning::specs::Lists::field))]
    pub fn text(self, buffer: &[u8]) -> &[u8]
        ensures { result.now ≡ (set_of self buffer.now).text }
    {
        block::field(buffer, 0, self.size)
    }
}

// What is known after some blocks: the least SN that the next set may have, and the set that is not closed yet, if there is one. The
// default stands before the first block.
#[derive(Clone, Copy, Default, PartialEq, Eq)]
pub struct Sets {
    pub least: u32,
    pub current: Option<Set>,
}

// The EBN of a set's last block.
const LAST: u8 = 255;

impl Sets {
    // The blocks before a set's last are numbered below it.
    pub const NUMBERED: usize = 240;

    // The longest text: that of all numbered blocks and the last.
    pub const ROOM: usize = (Sets::NUMBERED + 1) * TEXT_SIZE;

    // A file of few blocks needs less room, which takes less time to clear.
    pub const FEW: usize = 16;

    pub const FEW_ROOM: usize = Sets::FEW * TEXT_SIZE;

    #[tactic(auto, unfolding(meaning::specs::Walk::is_open, crate::specs::Assembling::assembly_of, crate::specs::Assembling::current_of))]
    pub fn is_open(self) -> bool
        ensures { (text : List ℕ) → result ≡ is_open (assembly_of self text) }
    {
        self.current.is_some()
    }
}

// What a block brings that breaks no rule: no room for its text, no closed set, or one.
#[derive(Clone, Copy, PartialEq, Eq)]
pub enum Step {
    NoRoom,
    Pending(Sets),
    Closed(Set, Sets),
}

// A set with one block more: EBN FFh closes it.
#[tactic(auto, unfolding(meaning::specs::Sets::close_at_last, crate::specs::Assembling::set_with, crate::specs::Assembling::sized_set, crate::specs::Assembling::sized_current, crate::specs::Assembling::sized_sets, crate::specs::Assembling::step_of))]
fn close_at_last(set: Set, least: u32) -> Step
    ensures { (text : List ℕ) → Ok result ≡ step_of set.size (close_at_last (set_with set text) least) }
{
    if set.last == LAST {
        let current = None;
        return Step::Closed(set, Sets { least, current });
    }
    let current = Some(set);
    Step::Pending(Sets { least, current })
}

// A block where no set is open: EBN 00h or FFh, then the rules 8 to 12. Its text has the given size.
#[tactic(auto, using(crate::proofs::Laws::opening_step), unfolding(crate::specs::Assembling::set_with))]
fn opening(f: Format, place: u64, h: Header, size: usize, least: u32) -> Result<Step, Refusal>
    ensures { (text : List ℕ) → result ≡ step_of size (opening f place h text least) }
{
    let begins = h.ebn == 0 || h.ebn == LAST;
    Refusal::unless(begins, 7, place, Header::EBN_AT as u64)?;
    headers::first_block_rule(f, place, least, h)?;
    let set = Set {
        place,
        first: h,
        last: h.ebn,
        size,
    };
    Ok(close_at_last(set, u32::from(h.sn) + 1))
}

#[tactic(auto, unfolding(meaning::specs::Sets::goes_on))]
fn goes_on(last: u8, ebn: u8) -> bool
    ensures { result ≡ goes_on last ebn }
{
    ebn == LAST || u32::from(ebn) == u32::from(last) + 1 && usize::from(ebn) < Sets::NUMBERED
}

// All blocks of a set agree in SGN, SN and CF.
#[tactic(auto, using(meaning::proofs::RefusalLaws::verdict_cons, meaning::proofs::RefusalLaws::verdict_one), unfolding(meaning::specs::Sets::agreement_rules))]
fn agreement_rule(place: u64, first: Header, h: Header) -> Result<(), Refusal>
    ensures { result ≡ verdict (first_broken place (agreement_rules first h)) }
{
    Refusal::unless(h.sgn == first.sgn, 7, place, Header::SGN_AT as u64)?;
    Refusal::unless(h.sn == first.sn, 7, place, Header::SN_AT as u64)?;
    Refusal::unless(h.cf == first.cf, 7, place, Header::CF_AT as u64)
}

// A block of the open set, with which the set's text has the given size.
#[tactic(auto, using(crate::proofs::Laws::continuing_step), unfolding(crate::specs::Assembling::set_with))]
fn continuing(place: u64, h: Header, size: usize, set: Set, least: u32) -> Result<Step, Refusal>
    ensures { (text part : List ℕ) → result ≡ step_of size (continuing place h part (set_with set text) least) }
{
    let goes_on = goes_on(set.last, h.ebn);
    Refusal::unless(goes_on, 7, place, Header::EBN_AT as u64)?;
    agreement_rule(place, set.first, h)?;
    let longer = Set {
        last: h.ebn,
        size,
        ..set
    };
    Ok(close_at_last(longer, least))
}

// Where a block's text goes: behind that of the open set, or to the front.
#[tactic(auto, unfolding(crate::specs::Assembling::text_end))]
fn text_end(current: Option<Set>) -> usize
    ensures { result ≡ text_end current }
{
    current.map_or(0, |set| set.size)
}

fn has_room(room: usize, at: usize, n: usize) -> bool
    ensures { result ≡ leb (at + n) room }
{
    room.checked_sub(at).is_some_and(|free| n <= free)
}

// A block where it stands: how its file is read, its place, and its bytes.
#[derive(Clone, Copy)]
pub struct PlacedBlock<'a> {
    pub f: Format,
    pub place: u64,
    pub bytes: &'a [u8],
}

impl<'a> PlacedBlock<'a> {
    pub fn header(self) -> Header
        ensures { result ≡ header_of self.entry.bytes.now }
    {
        block::header_of(self.bytes)
    }

    // The step that the block makes: user data is passed over wherever it stands.
    pub fn advance(self, text: &mut [u8], s: Sets) -> Result<Step, Refusal>
        ensures { Advances self.entry.f self.entry.place self.entry.bytes.now s text.old result text.new }
    {
        let h = self.header();
        if h.is_user() {
            return Ok(Step::Pending(s));
        }
        let part = block::text_of(self.bytes);
        let at = text_end(s.current);
        if !has_room(text.len(), at, part.len()) {
            return Ok(Step::NoRoom);
        }
        let size = at + part.len();
        output::put_bytes(text, at, part);
        match s.current {
            None => opening(self.f, self.place, h, size, s.least),
            Some(set) => continuing(self.place, h, size, set, s.least),
        }
    }
}
