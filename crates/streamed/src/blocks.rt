// Behind the GSI block a lump is fed in parts: the bytes that complete a block already begun, whole blocks, and the first bytes of the next.

ghost use Rattle.std.specs.Prelude.{◌≡◌, ◌+◌, ◌/◌, true, length};
ghost use Rattle.meaning.specs.Blocks.{gsi_size, block_size};
ghost use Rattle.store.specs.Layout.{store_size, is_phase};
ghost use Rattle.store.specs.Phases.{phase_number};
ghost use Rattle.store.specs.Tests.{is_sound_state};

use crate::parts::{marks, put_behind};
use checking::check_more;
use meaning::{BLOCK_SIZE, GSI_SIZE};
use output::Writer;
use store::{MOST_BLOCKS, State};
use styles::Marks;
use text::BodyWriter;

// A check whose GSI block is whole: its store and its numbers. A type beside `StoredCheck`, and not one that holds it: a ghost field
// beside a `&mut` is known only in a struct that is held directly.
#[derive(Drop)]
pub(crate) struct WholeGsi<'a> {
    pub store: &'a mut [u8],
    pub state: State,
    ghost size: { length store.now ≡ store_size },
    ghost phase: { is_phase (phase_number state.phase) ≡ true },
    ghost sound: { is_sound_state state ≡ true },
    ghost gsi: { state.gsi ≡ gsi_size },
}

// That the store stays the one that was lent is said of each call, before and after, so it is no ghost field. That no block is begun is
// asked for one call, so it is no third type.
impl<'a> WholeGsi<'a> {
    ghost use Rattle.feeding.specs.Feeding.{walked, fed};
    ghost use Rattle.streamed.specs.Stored.{whole_check};

    // Whole blocks: the converter's own pass over those that TNB can count.
    fn walk(&mut self, bytes: &[u8])
        ensures walked { whole_check self.new ≡ walked (whole_check self.old) (length bytes.now / block_size) bytes.now }
        ensures none_begun { self.new.state.part ≡ 0 }
        ensures same { self.new.store.ghost_name ≡ self.old.store.ghost_name }
    {
        let s = self.state;
        let n = bytes.len() / BLOCK_SIZE;
        let store = &mut *self.store;
        let f = gsi::format(block::field(store, store::GSI_AT, GSI_SIZE), s.mode);
        let Marks { mut on } = marks(store);
        let mut out = [0u8; 0];
        let mut writer = Writer {
            out: &mut out,
            at: s.tally.at,
        };
        let mut body = BodyWriter {
            writer: &mut writer,
            marks: &mut on,
            spans: s.tally.spans,
        };
        let pass = check_more(
            bytes,
            n.min(MOST_BLOCKS.saturating_sub(s.count)),
            s.count as u64,
            f,
            &mut store[store::TEXT_AT..],
            &mut body,
            s.pass,
        );
        let tally = body.tally();
        words::put_flags(store, store::MARKS_AT, &on);
        self.state = State {
            part: 0,
            count: s.count.saturating_add(n).min(MOST_BLOCKS + 1),
            pass,
            tally,
            ..s
        };
    }

    // The block that is begun becomes whole.
    #[tactic(auto, using(crate::proofs::Feeding::block_length, crate::proofs::Feeding::block_fed))]
    fn feed_block(&mut self, bytes: &[u8])
        requires { self.old.state.part + length bytes.now ≡ block_size }
        ensures fed { whole_check self.new ≡ fed (whole_check self.old) bytes.now }
        ensures none_begun { self.new.state.part ≡ 0 }
        ensures same { self.new.store.ghost_name ≡ self.old.store.ghost_name }
    {
        let store = &mut *self.store;
        put_behind(store, store::PART_AT, self.state.part, bytes);
        let mut whole = [0u8; BLOCK_SIZE];
        whole.copy_from_slice(block::field(store, store::PART_AT, BLOCK_SIZE));
        self.walk(&whole);
    }

    // Whole blocks, and the bytes of the next one.
    #[tactic(auto, using(crate::proofs::Sound::sound_part))]
    fn feed_blocks(&mut self, bytes: &[u8])
        requires { self.old.state.part ≡ 0 }
        ensures fed { whole_check self.new ≡ fed (whole_check self.old) bytes.now }
        ensures same { self.new.store.ghost_name ≡ self.old.store.ghost_name }
    {
        let (whole, rest) = bytes.split_at(bytes.len() / BLOCK_SIZE * BLOCK_SIZE);
        self.walk(whole);
        self.state.part = put_behind(self.store, store::PART_AT, 0, rest);
    }

    // The bytes behind the GSI block.
    #[tactic(auto, using(crate::proofs::Sound::part_low, crate::proofs::Sound::sound_part, crate::proofs::Feeding::part_fed))]
    pub(crate) fn feed(&mut self, bytes: &[u8])
        ensures fed { whole_check self.new ≡ fed (whole_check self.old) bytes.now }
        ensures same { self.new.store.ghost_name ≡ self.old.store.ghost_name }
    {
        let lacking = BLOCK_SIZE - self.state.part;
        if bytes.len() < lacking {
            self.state.part = put_behind(self.store, store::PART_AT, self.state.part, bytes);
            return;
        }
        let (begun, rest) = bytes.split_at(lacking);
        self.feed_block(begun);
        self.feed_blocks(rest);
    }
}
