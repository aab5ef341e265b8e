// One block of an EBU STL file: a view of its bytes, its header and its text. The work on plain slices stands in `parts` and
// `read`.

#![tactic(auto)]

ghost use Rattle.std.specs.Prelude.{◌≡◌};
ghost use Rattle.meaning.specs.Blocks.{header_of, block_text};

use meaning::Header;

mod parts;
mod read;

pub use parts::{bytes_at, field};

// One block's bytes: 128, or fewer where the file ends. What is past the 128th is not read.
#[derive(Clone, Copy)]
pub struct Block<'a> {
    pub bytes: &'a [u8],
}

// No `From`: beside this function it would promise the same a second time.
#[inline]
pub fn block_of<'a>(bytes: &'a [u8]) -> Block<'a>
    ensures { result.bytes.now ≡ bytes.now }
{
    Block { bytes }
}

impl<'a> Block<'a> {
    // Bytes past the block's end read as 0.
    #[inline]
    pub fn header(self) -> Header
        ensures { result ≡ header_of self.entry.bytes.now }
    {
        read::header_in(self.bytes)
    }

    #[inline]
    pub fn text(self) -> &'a [u8]
        ensures { result.now ≡ block_text self.entry.bytes.now }
    {
        read::text_in(self.bytes)
    }
}

// The header of a block's bytes.
#[inline]
pub fn header_of(bytes: &[u8]) -> Header
    ensures { result ≡ header_of bytes.now }
{
    block_of(bytes).header()
}

// The text of a block's bytes, as a part of them.
#[inline]
pub fn text_of(bytes: &[u8]) -> &[u8]
    ensures { result.now ≡ block_text bytes.now }
{
    block_of(bytes).text()
}
