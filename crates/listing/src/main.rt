// Reads a module from standard input and prints a line for each of its words: index, word, and the instruction with its fields.
#![tactic(auto)]

use std::io::Write;
use std::{fmt, io};

// The longest module, in bytes.
const LONGEST_MODULE: usize = layout::LARGEST as usize;

// A word of a module and its index, as the listing writes them.
#[derive(Drop)]
struct Line {
    index: usize,
    word: u32,
}

impl fmt::Display for Line {
    fn fmt<W: fmt::Write>(&self, f: &mut fmt::Formatter<W>) -> fmt::Result {
        write!(f, "{} 0x{:08x} ", self.index, self.word)?;
        match reader::read(self.word) {
            Some(i) => write!(
                f,
                "{:8} rs {} rt {} rd {} shift {} value {}",
                i.kind, i.rs, i.rt, i.rd, i.shift, i.value
            ),
            None => f.write_str("no instruction"),
        }
    }
}

// A function that writes and no Display, here and below: these are lines, as many as there are words, or none.
fn print_words(out: &mut impl Write, image: &[u8]) -> io::Result<()> {
    for (index, bytes) in image.chunks_exact(4).enumerate() {
        let word = word::bytes::load::<4>(bytes, 0);
        writeln!(out, "{}", Line { index, word })?;
    }
    Ok(())
}

// What cannot be listed is said: bytes that make no word, and input past what a module may have.
fn print_left_over(out: &mut impl Write, bytes: usize, longer: bool) -> io::Result<()> {
    if bytes != 0 {
        writeln!(out, "{bytes} bytes are left over: a word has four")?;
    }
    if longer {
        writeln!(
            out,
            "the input is longer than {LONGEST_MODULE} bytes: the rest is not listed"
        )?;
    }
    Ok(())
}

fn main(rt: HostRuntime) -> io::Result<()> {
    let mut input = rt.stdin();
    let mut out = rt.stdout();
    // Of fixed size, this and the next, as nothing is allocated.
    let mut space = [0u8; LONGEST_MODULE];
    let image = input::read_part(&mut input, &mut space)?;
    print_words(&mut out, image)?;
    let mut one = [0u8; 1];
    let longer = !input::read_part(&mut input, &mut one)?.is_empty();
    print_left_over(&mut out, image.len() % 4, longer)
}
