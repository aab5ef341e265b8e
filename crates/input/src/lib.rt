// What the programs read from standard input: a digit for the break mode, and then the file. The program `cases` reads as they do.

#![tactic(auto)]

ghost use Rattle.std.specs.Prelude.{◌≡◌, ◌<◌, length, take, IfOk, OnErr, IfSome, IfNone};
ghost use Rattle.std.specs.Io.{ReadsAtMost};
ghost use Rattle.std.specs.Io.KnownBytes.{Consumes, Keeps, IsAtEnd};
ghost use Rattle.input.specs.Modes.{mode_of};
ghost use Rattle.input.specs.Reads.{ReadsMode, ReadsSome, ReadsAll};

use std::io;
use std::io::Read;

// The most bytes of a file, and of the document that it gives.
pub const LIMIT: usize = 65536;

// What is lent for a file: one byte more than it may have, so that a file that fills the buffer is too long.
pub const BUFFER_SIZE: usize = LIMIT + 1;

// The break mode of a digit; 0 for any other byte. A number, as `convert` takes any: rule 1 refuses 0.
#[tactic(auto, unfolding(crate::specs::Modes::mode_of))]
pub fn mode_of(digit: u8) -> u64
    ensures { result ≡ mode_of digit }
{
    match digit {
        b'1' => 1,
        b'2' => 2,
        _ => 0,
    }
}

// Reads until the buffer is full or the input ends, and tells how many bytes it put at the start of the buffer. A read that fails
// is its error, and loses nothing: what was read before stands at the start of the buffer.
pub fn read_full<R: Read>(reader: &mut R, buffer: &mut [u8]) -> io::Result<usize>
    ensures count { ReadsAtMost result buffer.new }
    ensures bytes { IfOk result (λ n. Consumes (R.remaining reader.old) (R.remaining reader.new) (take n buffer.new)) }
    ensures failed { OnErr result (ReadsSome (R.remaining reader.old) (R.remaining reader.new) buffer.new) }
    ensures end { IfOk result (λ n. n < length buffer.new → IsAtEnd (R.remaining reader.new)) }
{
    // A loop of its own: `read_exact` fails at the end of the input, and leaves open how much it read.
    let mut done = 0;
    while done < buffer.len() {
        let n = reader.read(&mut buffer[done..])?;
        if n == 0 {
            break;
        }
        done += n;
    }
    Ok(done)
}

// Reads the digit and tells its break mode; 0 where the input has ended. A read that fails is its error, and loses nothing.
pub fn read_mode<R: Read>(reader: &mut R) -> io::Result<u64>
    ensures mode { IfOk result (λ mode. ReadsMode (R.remaining reader.old) (R.remaining reader.new) mode) }
    ensures failed { OnErr result (Keeps (R.remaining reader.old) (R.remaining reader.new)) }
{
    let mut digit = [0u8; 1];
    // A read of no byte leaves open what the buffer holds.
    if read_full(reader, &mut digit)? == 0 {
        return Ok(0);
    }
    Ok(mode_of(digit[0]))
}

// Reads the rest of the input, the file, and tells how many bytes it put at the start of the buffer; none where it filled the buffer.
// A length and not the slice: of a buffer that the result holds on to, no clause says what it holds.
pub fn read_file<R: Read>(reader: &mut R, buffer: &mut [u8]) -> io::Result<Option<usize>>
    ensures file { IfOk result (λ length. IfSome length (λ n. ReadsAll (R.remaining reader.old) (R.remaining reader.new) n buffer.new)) }
    ensures too_long { IfOk result (λ length. IfNone length (Consumes (R.remaining reader.old) (R.remaining reader.new) buffer.new)) }
    ensures failed { OnErr result (ReadsSome (R.remaining reader.old) (R.remaining reader.new) buffer.new) }
{
    let n = read_full(reader, buffer)?;
    Ok((n < buffer.len()).then_some(n))
}
