// The converting program of document 01: a digit for the break mode and then the file on standard input; the document or one line on standard output.

#![tactic(auto)]

use std::io;

fn main(rt: HostRuntime) -> io::Result<()> {
    let mut file = [0u8; input::BUFFER_SIZE];
    let mut out = [0u8; input::LIMIT];
    let mut stdin = rt.stdin();
    let mode = input::read_mode(&mut stdin)?;
    let Some(n) = input::read_file(&mut stdin, &mut file)? else {
        return println!(rt; "too long");
    };
    let a = convert::convert(&file[..n], mode, &mut out);
    if a.number > 0 {
        return println!(rt; "refused {} at {}", a.number, a.place);
    }
    rt.write_all(&out[..a.length as usize])
}
