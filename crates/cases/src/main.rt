// The boundary cases of document 01 that are run. They stand on standard input as tests/CASES.md describes them, a header and a
// file each.

#![tactic(auto)]

use input::LIMIT;
use meaning::Answer;
use std::io;
use std::io::Read;

// More cases are not run.
const MOST: usize = 1000;

// A header: the name; the break mode; the room and the file's length, three bytes each, the low one first; LF.
const HEADER_SIZE: usize = 32;

const NAME_SIZE: usize = 24;

// The Adler-32 checksum.
fn adler(bytes: &[u8]) -> u64 {
    let mut low = 1;
    let mut high = 0;
    for b in bytes {
        low = (low + u64::from(*b)) % 65521;
        high = (high + low) % 65521;
    }
    high * 65536 + low
}

fn say_name(rt: &impl Print, header: &[u8; HEADER_SIZE]) -> io::Result<()> {
    rt.write_all(&header[..NAME_SIZE])?;
    print!(rt; ": ")
}

// The numbers of an answer in a line, with a blank between them. No `Display`: the check program has them a number a line.
fn say_answer(rt: &impl Print, a: Answer) -> io::Result<()> {
    let [
        number,
        place,
        length,
        subtitles,
        comments,
        continuations,
        users,
        spans,
    ] = <[u64; 8]>::from(a);
    print!(rt; "{number} {place} {length} {subtitles} ")?;
    println!(rt; "{comments} {continuations} {users} {spans}")
}

#[derive(Clone, Copy)]
struct Case {
    mode: u64,
    room: usize,
    length: usize,
}

impl From<&[u8; HEADER_SIZE]> for Case {
    fn from(header: &[u8; HEADER_SIZE]) -> Case {
        let room = u32::from_le_bytes([header[25], header[26], header[27], 0]);
        let length = u32::from_le_bytes([header[28], header[29], header[30], 0]);
        Case {
            mode: u64::from(header[24]),
            room: room as usize,
            length: length as usize,
        }
    }
}

// Converts a file and says the answer, and of a document the checksum.
fn say_converted(rt: &impl Print, file: &[u8], mode: u64, out: &mut [u8]) -> io::Result<()> {
    let a = convert::convert(file, mode, out);
    say_answer(rt, a)?;
    if a.number > 0 {
        return Ok(());
    }
    println!(rt; "{}", adler(&out[..a.length as usize]))
}

// Reads the file and says what comes of it; a case with too large a room or file, or with less of a file, says no more.
fn run<R: Read>(
    rt: &impl Print,
    reader: &mut R,
    c: Case,
    file: &mut [u8],
    out: &mut [u8],
) -> io::Result<()> {
    if c.length > file.len() || c.room > out.len() {
        return Ok(());
    }
    let n = input::read_full(reader, &mut file[..c.length])?;
    if n < c.length {
        return Ok(());
    }
    say_converted(rt, &file[..n], c.mode, &mut out[..c.room])
}

// The next case, if there is one.
fn run_next<R: Read>(
    rt: &impl Print,
    reader: &mut R,
    header: &mut [u8; HEADER_SIZE],
    file: &mut [u8; LIMIT],
    out: &mut [u8; LIMIT],
) -> io::Result<bool> {
    let n = input::read_full(reader, header)?;
    if n < HEADER_SIZE {
        return Ok(false);
    }
    say_name(rt, header)?;
    run(rt, reader, Case::from(&*header), file, out)?;
    Ok(true)
}

fn main(rt: HostRuntime) -> io::Result<()> {
    let mut header = [0u8; HEADER_SIZE];
    let mut file = [0u8; LIMIT];
    let mut out = [0u8; LIMIT];
    let mut stdin = rt.stdin();
    for _ in 0..MOST {
        if !run_next(&rt, &mut stdin, &mut header, &mut file, &mut out)? {
            break;
        }
    }
    Ok(())
}
