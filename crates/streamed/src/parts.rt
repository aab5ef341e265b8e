// The parts of a store: bytes are put into one, and the looks in use are read.

ghost use Rattle.std.specs.Prelude.{◌≡◌, ◌+◌, ◌<◌, ◌^◌, length};
ghost use Rattle.output.specs.Output.{stored};
ghost use Rattle.store.specs.Layout.{store_size, marks_in};

use meaning::Look;
use styles::Marks;

// Puts bytes behind the `size` bytes that the part at `at` already holds, and tells how many it holds then.
pub(crate) fn put_behind(store: &mut [u8], at: usize, size: usize, bytes: &[u8]) -> usize
    requires { at + size + length bytes.now < 2 ^ 64 }
    ensures size { result ≡ size + length bytes.now }
    ensures store { store.new ≡ stored store.old (at + size) bytes.now }
{
    output::put_bytes(store, at + size, bytes);
    size + bytes.len()
}

// The looks in use.
#[tactic(auto, using(crate::proofs::Walking::marks_read))]
pub(crate) fn marks(store: &[u8]) -> Marks
    requires { length store.now ≡ store_size }
    ensures { result.on ≡ marks_in store.now }
{
    let mut on = [false; Look::COUNT];
    words::flags_in(block::field(store, store::MARKS_AT, Look::COUNT), &mut on);
    Marks { on }
}
