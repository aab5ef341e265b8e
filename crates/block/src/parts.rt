// Parts of a slice that end where the slice ends, and the bytes of a block.

ghost use Rattle.std.specs.Prelude.{◌≡◌, ◌+◌, ◌*◌, min};
ghost use Rattle.meaning.specs.Lists.{field};
ghost use Rattle.meaning.specs.Blocks.{gsi_size, block_size, block_at};

use meaning::{BLOCK_SIZE, GSI_SIZE};

// Where a block starts, at most the file's end: no place is too large to multiply.
fn start_of(size: usize, k: usize) -> usize
    ensures { result ≡ min (gsi_size + block_size * k) size }
{
    BLOCK_SIZE
        .saturating_mul(k)
        .saturating_add(GSI_SIZE)
        .min(size)
}

// The n bytes from an offset on, or as many as there are.
#[tactic(auto, unfolding(meaning::specs::Lists::field))]
pub fn field(s: &[u8], from: usize, n: usize) -> &[u8]
    ensures { result.now ≡ field from n s.now }
{
    let rest = &s[from.min(s.len())..];
    &rest[..n.min(rest.len())]
}

// The bytes of block k.
#[tactic(auto, unfolding(meaning::specs::Lists::field, meaning::specs::Blocks::block_at))]
pub fn bytes_at(file: &[u8], k: usize) -> &[u8]
    ensures { result.now ≡ block_at file.now k }
{
    field(file, start_of(file.len(), k), BLOCK_SIZE)
}
