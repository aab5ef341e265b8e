// The header and the text of a block, read from its bytes.

ghost use Rattle.std.specs.Prelude.{◌≡◌, ◌+◌, ◌*◌, ◌≤◌, length};
ghost use Rattle.meaning.specs.Lists.{take_while};
ghost use Rattle.meaning.specs.Blocks.{header_size, time_at, header_of, in_text, block_text};

use crate::parts::field;
use meaning::{HEADER_SIZE, Header, TEXT_SIZE, Time};

// Ends a text.
const TEXT_END: u8 = 0x8F;

// Four bytes taken by value would need no requirement, but have their eight indices written out.
#[tactic(auto, unfolding(meaning::specs::Blocks::time_at))]
fn time_at(b: &[u8; HEADER_SIZE], i: usize) -> Time
    requires { i + 4 ≤ header_size }
    ensures { result ≡ time_at i b.now }
{
    Time {
        hours: b[i],
        minutes: b[1 + i],
        seconds: b[2 + i],
        frames: b[3 + i],
    }
}

// In SN the low byte comes first.
#[tactic(auto, unfolding(meaning::specs::Blocks::header_of))]
fn whole_header(b: &[u8; HEADER_SIZE]) -> Header
    ensures { result ≡ header_of b.now }
{
    Header {
        sgn: b[Header::SGN_AT],
        sn: u16::from_le_bytes([b[Header::SN_AT], b[1 + Header::SN_AT]]),
        ebn: b[Header::EBN_AT],
        cs: b[Header::CS_AT],
        tci: time_at(b, Header::TCI_AT),
        tco: time_at(b, Header::TCO_AT),
        vp: b[Header::VP_AT],
        jc: b[Header::JC_AT],
        cf: b[Header::CF_AT],
    }
}

// Bytes past the block's end read as 0.
#[tactic(auto, using(crate::proofs::Headers::header_whole, crate::proofs::Headers::header_filled))]
pub(crate) fn header_in(bytes: &[u8]) -> Header
    ensures { result ≡ header_of bytes.now }
{
    if let Some(whole) = bytes.first_chunk::<HEADER_SIZE>() {
        return whole_header(whole);
    }
    let mut filled = [0u8; HEADER_SIZE];
    filled[..bytes.len()].copy_from_slice(bytes);
    whole_header(&filled)
}

// How many bytes stand before the first 8Fh.
fn length_before_end(text: &[u8]) -> usize
    ensures { result ≡ length (take_while in_text text.now) }
{
    memchr::memchr(TEXT_END, text).unwrap_or(text.len())
}

// The bytes before the first 8Fh of the text field.
#[tactic(auto, using(meaning::proofs::ListLaws::take_while_lem, meaning::proofs::ListLaws::while_short), unfolding(meaning::specs::Blocks::block_text))]
pub(crate) fn text_in(bytes: &[u8]) -> &[u8]
    ensures { result.now ≡ block_text bytes.now }
{
    let text = field(bytes, HEADER_SIZE, TEXT_SIZE);
    &text[..length_before_end(text)]
}
