// Tells why a file is refused: a digit for the break mode and then the file on standard input; on standard output the numbers of the reason, each
// followed by LF: number, block, offset, 1 or 0 for a byte or none, the byte or 0. The buffer is as long as that of the converting program.

#![tactic(auto)]

use std::io;

fn main(rt: HostRuntime) -> io::Result<()> {
    let mut file = [0u8; input::BUFFER_SIZE];
    let mut stdin = rt.stdin();
    let mode = input::read_mode(&mut stdin)?;
    let Some(n) = input::read_file(&mut stdin, &mut file)? else {
        return println!(rt; "too long");
    };
    let r = explain::explain(&file[..n], mode, input::LIMIT);
    let [number, block, offset, presence, byte] = <[u64; 5]>::from(r);
    println!(rt; "{number}\n{block}\n{offset}")?;
    println!(rt; "{presence}\n{byte}")
}
