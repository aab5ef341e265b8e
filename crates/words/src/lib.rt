// Numbers and truth values in a lent buffer of bytes: eight bytes for a number, the lowest first, and one for a truth value.

#![tactic(auto)]

ghost use Rattle.std.specs.Prelude.{◌≡◌};
ghost use Rattle.output.specs.Output.{stored};
ghost use Rattle.words.specs.Words.{words_bytes, word_at};
ghost use Rattle.words.specs.Flags.{flags_bytes, flags_over};

use output::Writer;

pub const WORD_SIZE: usize = 8;

// Number i; what is past the end reads as 0, also at an index too large to multiply.
#[tactic(auto, using(block::proofs::Fields::field_length, crate::proofs::Laws::word_whole, crate::proofs::Laws::word_room, crate::proofs::Laws::word_filled, crate::proofs::Laws::field_far), unfolding(crate::specs::Words::word_at))]
pub fn word_at(s: &[u8], i: usize) -> u64
    ensures { result ≡ word_at i s.now }
{
    let bytes = block::field(s, WORD_SIZE.saturating_mul(i), WORD_SIZE);
    // A whole number is read at once.
    if let Some(whole) = bytes.first_chunk::<WORD_SIZE>() {
        return u64::from_le_bytes(*whole);
    }
    let mut word = [0u8; WORD_SIZE];
    word[..bytes.len()].copy_from_slice(bytes);
    u64::from_le_bytes(word)
}

// The numbers from the buffer's start on; bytes past its end are cut.
pub fn put_words(s: &mut [u8], ns: &[u64])
    ensures { s.new ≡ stored s.old 0 (words_bytes ns.now) }
{
    let mut w = Writer::new(s);
    for n in ns {
        w.put(&n.to_le_bytes());
    }
}

// The truth values of the bytes, as many as both have; the rest stays. Stored by index: nothing is known of
// what a loop over `iter_mut().zip(..)` wrote.
pub fn flags_in(s: &[u8], on: &mut [bool])
    ensures { on.new ≡ flags_over s.now on.old }
{
    let n = s.len().min(on.len());
    for (j, b) in s[..n].iter().enumerate() {
        on[j] = *b == 1;
    }
}

// The truth values from an offset on; those past the buffer's end are cut. Stored by index, as in `flags_in`.
pub fn put_flags(s: &mut [u8], at: usize, on: &[bool])
    ensures { s.new ≡ stored s.old at (flags_bytes on.now) }
{
    let n = output::fitting(s.len(), at, on.len());
    for (j, set) in on[..n].iter().enumerate() {
        s[at + j] = u8::from(*set);
    }
}
