// A check in its store. The first bytes of a file are those of its GSI block; the others are fed as bytes of blocks.

ghost use Rattle.std.specs.Prelude.{◌≡◌, ◌&&◌, true, Some, leb, eqb, length};
ghost use Rattle.meaning.specs.Blocks.{gsi_size};
ghost use Rattle.store.specs.Layout.{store_size, is_phase};
ghost use Rattle.store.specs.Phases.{phase_number};
ghost use Rattle.store.specs.Tests.{is_sound_state};

use crate::blocks::WholeGsi;
use crate::parts::{marks, put_behind};
use meaning::{Answer, GSI_SIZE};
use store::State;

// The store of a check that was opened and fed, and the numbers that it holds.
#[derive(Drop)]
pub(crate) struct StoredCheck<'a> {
    pub store: &'a mut [u8],
    pub state: State,
    ghost size: { length store.now ≡ store_size },
    ghost phase: { is_phase (phase_number state.phase) ≡ true },
    ghost sound: { is_sound_state state ≡ true },
}

// The file may end here: the GSI block is whole, and no block is begun.
fn is_whole(s: State) -> bool
    ensures { result ≡ (leb gsi_size s.gsi && eqb s.part 0) }
{
    GSI_SIZE <= s.gsi && s.part == 0
}

impl<'a> StoredCheck<'a> {
    ghost use Rattle.feeding.specs.Feeding.{fed};
    ghost use Rattle.lumps.specs.Lumps.{answer_now};
    ghost use Rattle.store.specs.Stores.{check_of};
    ghost use Rattle.streamed.specs.Stored.{check_of_it};

    // By a method: the range of each number is then known.
    fn state(&self) -> State
        ensures { result ≡ self.now.state }
    {
        self.state
    }

    // A whole lump. It fills up what lacks, as `WholeGsi::feed` does, and each is a function of its own: they differ in the type, and in
    // what follows a part that is full.
    #[tactic(auto, using(crate::proofs::Sound::gsi_low, crate::proofs::Sound::sound_gsi, crate::proofs::Feeding::gsi_fed))]
    pub(crate) fn feed(&mut self, lump: &[u8])
        ensures fed { check_of_it self.new ≡ fed (check_of_it self.old) lump.now }
        ensures same { self.new.store.ghost_name ≡ self.old.store.ghost_name }
    {
        let lacking = GSI_SIZE - self.state.gsi;
        if lump.len() < lacking {
            self.state.gsi = put_behind(self.store, store::GSI_AT, self.state.gsi, lump);
            return;
        }
        let (begun, rest) = lump.split_at(lacking);
        self.state.gsi = put_behind(self.store, store::GSI_AT, self.state.gsi, begun);
        let state = self.state;
        let store = &mut *self.store;
        let mut whole = WholeGsi { store, state };
        whole.feed(rest);
        self.state = whole.state;
    }

    // Its numbers are written at the front of the store, which then holds it.
    pub(crate) fn save(&mut self)
        ensures held { check_of self.new.store.now ≡ Some (check_of_it self.old) }
        ensures same { self.new.store.ghost_name ≡ self.old.store.ghost_name }
    {
        let state = self.state();
        store::put_state(self.store, state);
    }

    // The answer, if the file ends here.
    pub(crate) fn answer(&self) -> Answer
        ensures { result ≡ answer_now (check_of_it self.now) }
    {
        let s = self.state;
        let gsi = block::field(self.store, store::GSI_AT, s.gsi);
        let whole = is_whole(s);
        if let Err(rule) = gsi::gsi_rule(gsi, s.mode, 0, whole, s.count) {
            return convert::answer_refused(rule, 0);
        }
        let checked = s.pass.checked(s.count as u64, s.tally, marks(self.store));
        convert::answer_of(gsi::format(gsi, s.mode), checked, s.room as usize)
    }
}
