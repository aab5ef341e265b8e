// Bytes laid over a lent buffer, from a position on. What falls past the buffer's end is cut and the position counts on,
// so over an empty buffer the same functions only measure.

#![tactic(auto)]

ghost use Rattle.std.specs.Prelude.{◌≡◌, [], ◌∷◌, ◌-◌, min};
ghost use Rattle.output.specs.Output.{past, stored};

// The position n past another; it stays at the largest number. Every position of a document, and its number of spans, is
// added up by it.
#[tactic(auto, unfolding(crate::specs::Output::past))]
pub fn after(at: usize, n: usize) -> usize
    ensures { result ≡ past at n }
{
    at.saturating_add(n)
}

#[inline]
pub fn least(a: usize, b: usize) -> usize
    ensures { result ≡ min a b }
{
    a.min(b)
}

// How many of n elements a buffer of some size has room for from a position on.
pub fn fitting(size: usize, at: usize, n: usize) -> usize
    ensures { result ≡ min n (size - at) }
{
    least(n, size.saturating_sub(at))
}

// Values copied into an array from an index on; those past its end are cut. Where all fit, as many are copied as the slice has:
// in a caller with a literal that number is known, and they are stored with no loop and no call.
#[inline(always)]
pub fn put_at<T: Copy>(array: &mut [T], at: usize, values: &[T])
    ensures { array.new ≡ stored array.old at values.now }
{
    if at < array.len() {
        let room = array.len() - at;
        if values.len() <= room {
            array[at..at + values.len()].copy_from_slice(values);
        } else {
            array[at..at + room].copy_from_slice(&values[..room]);
        }
    }
}

// Bytes copied into a buffer from an index on; those past its end are cut. A loop over two parameters, in a call of its own: of these it is
// known that they do not overlap, so the library for C needs `memcpy` from outside and no `memmove`, which `copy_from_slice` becomes.
#[inline(never)]
pub fn put_bytes(buffer: &mut [u8], at: usize, bytes: &[u8])
    ensures { buffer.new ≡ stored buffer.old at bytes.now }
{
    let n = fitting(buffer.len(), at, bytes.len());
    for (j, b) in bytes[..n].iter().enumerate() {
        buffer[at + j] = *b;
    }
}

// A lent buffer, and the position of the next byte in it.
#[derive(Drop)]
pub struct Writer<'a> {
    pub out: &'a mut [u8],
    pub at: usize,
}

impl<'a> Writer<'a> {
    ghost use Rattle.output.specs.Output.{Put};

    pub fn new(out: &'a mut [u8]) -> Writer<'a>
        ensures buffer { result.out.ghost_name ≡ out.entry.ghost_name }
        ensures held { result.out.now ≡ out.old }
        ensures at { result.at ≡ 0 }
    {
        Writer { out, at: 0 }
    }

    #[inline(always)]
    pub fn put(&mut self, bytes: &[u8])
        ensures { Put self.old bytes.now self.new }
    {
        put_at(self.out, self.at, bytes);
        self.at = after(self.at, bytes.len());
    }

    // By the index, as nothing is known of what is stored through `get_mut`. A byte by itself, as most are, needs no slice.
    pub fn put_byte(&mut self, b: u8)
        ensures { Put self.old (b ∷ []) self.new }
    {
        let at = self.at;
        if at < self.out.len() {
            self.out[at] = b;
        }
        self.at = after(at, 1);
    }
}
