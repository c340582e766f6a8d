// Reads cases from standard input, 28 bytes each, and prints what cc100_read and cc100_write answer.
// A case is seven little-endian words: 0 and a word to be read, or 1 and kind, rs, rt, rd, shift and value to be written.
#![tactic(auto)]

use cc100_instruction::{cc100_read, cc100_write};
use std::io;
use std::io::Write;
use word::bytes::words;

// More input is not read, in bytes. A limit of this program's own: it is no module.
const LONGEST_INPUT: usize = 65536;

const CASE: usize = 28;

// A function that writes and no Display: it calls what it prints.
fn run_case(out: &mut impl Write, case: [u32; 7]) -> io::Result<()> {
    match case {
        [0, word, ..] => {
            let i = cc100_read(word);
            writeln!(
                out,
                "read 0x{word:08x} gives {} {} {} {} {} {}",
                i.kind, i.rs, i.rt, i.rd, i.shift, i.value
            )
        }
        [_, kind, rs, rt, rd, shift, value] => {
            let w = cc100_write(kind, rs, rt, rd, shift, value);
            writeln!(
                out,
                "write {kind} {rs} {rt} {rd} {shift} {value} gives {} 0x{:08x}",
                w.number, w.word
            )
        }
    }
}

fn run_cases(out: &mut impl Write, cases: &[u8]) -> io::Result<()> {
    for case in cases.chunks_exact(CASE) {
        run_case(out, words(case, 0))?;
    }
    Ok(())
}

fn main(rt: HostRuntime) -> io::Result<()> {
    // Of fixed size, as nothing is allocated.
    let mut space = [0u8; LONGEST_INPUT];
    let cases = input::read_part(&mut rt.stdin(), &mut space)?;
    run_cases(&mut rt.stdout(), cases)
}
