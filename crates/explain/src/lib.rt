// Why a file is refused: the rule and the block that the converter's own walk tells, the offset in the file, and the byte there.

#![tactic(auto)]

ghost use Rattle.std.specs.Prelude.{◌≡◌, ◌-◌, ◌<◌, ◌^◌, length};
ghost use Rattle.meaning.specs.Gsi.{block_count};
ghost use Rattle.meaning.specs.Blocks.{block_start};
ghost use Rattle.meaning.specs.Reasons.{text_at, text_offset, offset_in, byte_at, reason};
ghost use Rattle.reasons.specs.Explained.{Told};
ghost use Rattle.explain.specs.Places.{InReach};

use meaning::{BLOCK_SIZE, GSI_SIZE, HEADER_SIZE, Reason, Refusal};

// How many bytes the text of block k has; user data has none.
#[tactic(auto, unfolding(meaning::specs::Reasons::text_at))]
fn text_size(file: &[u8], k: usize) -> usize
    ensures { result ≡ length (text_at file.now k) }
{
    let bytes = block::bytes_at(file, k);
    let h = block::header_of(bytes);
    if h.is_user() {
        return 0;
    }
    block::text_of(bytes).len()
}

fn block_start(k: u64) -> u64
    requires { block_start k < 2 ^ 64 }
    ensures { result ≡ block_start k }
{
    GSI_SIZE as u64 + BLOCK_SIZE as u64 * k
}

// Where byte i of the text of a set that begins at a block stands in the file.
fn text_offset(file: &[u8], place: usize, i: usize) -> u64
    ensures { result ≡ text_offset file.now (block_count file.now - place) place i }
{
    let mut left = i;
    for k in place..gsi::block_count(file) {
        let size = text_size(file, k);
        if left < size {
            return block_start(k as u64) + HEADER_SIZE as u64 + left as u64;
        }
        left -= size;
    }
    file.len() as u64
}

// Where in the file a refusal of the file stands: by the rule's number, as `Reasons.offset_in` has it and callers in C get it.
#[tactic(auto, unfolding(meaning::specs::Reasons::offset_in))]
fn offset_in(file: &[u8], r: Refusal) -> u64
    requires { InReach r }
    ensures { result ≡ offset_in file.now r }
{
    match r.number {
        1..=6 => r.offset,
        7..=12 => block_start(r.place) + r.offset,
        13..=15 => text_offset(file, r.place as usize, r.offset as usize),
        _ => file.len() as u64,
    }
}

#[tactic(auto, unfolding(meaning::specs::Reasons::byte_at))]
fn byte_at(file: &[u8], offset: u64) -> Option<u8>
    ensures { result ≡ byte_at file.now offset }
{
    file.get(offset as usize).copied()
}

// The reason for the answer to any file, any break mode and a buffer of any length; an accepted file has number 0.
pub fn explain(file: &[u8], mode: u64, room: usize) -> Reason
    ensures reason { result ≡ reason mode file.now room }
    ensures told { Told mode file.now room result }
{
    // An accepted file has number 0 in `Reasons.reason`.
    let r = convert::refusal(file, mode, room)
        .err()
        .unwrap_or(Refusal::NONE);
    let offset = offset_in(file, r);
    Reason {
        number: r.number,
        block: r.place,
        offset,
        byte: byte_at(file, offset),
    }
}
