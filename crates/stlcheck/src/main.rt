// The check program of document 02: a digit for the break mode and then a file of any length on standard input; on standard output the eight
// numbers of the answer, for a buffer of 2 to the 40 bytes, each followed by LF.

#![tactic(auto)]

use meaning::Answer;
use std::io;
use std::io::Read;

const ROOM: u64 = 1099511627776;

// What is read at once.
const LUMP: usize = 65536;

fn say_answer(rt: &impl Print, a: Answer) -> io::Result<()> {
    let [
        number,
        place,
        length,
        subtitles,
        comments,
        continuations,
        users,
        spans,
    ] = <[u64; 8]>::from(a);
    println!(rt; "{number}\n{place}\n{length}\n{subtitles}")?;
    println!(rt; "{comments}\n{continuations}\n{users}\n{spans}")
}

// Feeds what is read next, and tells whether it was the last.
fn feed_next<R: Read>(reader: &mut R, store: &mut [u8], lump: &mut [u8]) -> io::Result<bool> {
    let n = input::read_full(reader, lump)?;
    streamed::feed_check(store, &lump[..n]);
    Ok(n < lump.len())
}

// A `for` and no `loop`, which must be shown to end: an input has fewer lumps than that.
fn feed_input<R: Read>(reader: &mut R, store: &mut [u8]) -> io::Result<()> {
    let mut lump = [0u8; LUMP];
    for _ in 0..u64::MAX {
        if feed_next(reader, store, &mut lump)? {
            break;
        }
    }
    Ok(())
}

fn main(rt: HostRuntime) -> io::Result<()> {
    let mut store = [0u8; streamed::SIZE];
    let mut stdin = rt.stdin();
    let mode = input::read_mode(&mut stdin)?;
    streamed::open_check(&mut store, mode, ROOM);
    feed_input(&mut stdin, &mut store)?;
    say_answer(&rt, streamed::close_check(&mut store))
}
