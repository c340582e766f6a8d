// Reads a module from standard input and prints the checker's verdict on it, one line: accept and the count of its words, or refuse,
// the number of the rule, and the index of the word where it is broken or - where there is none.
#![tactic(auto)]

ghost use Rattle.std.specs.Prelude.{◌≡◌, ◌<◌, ◌^◌, length};
ghost use Rattle.checker.specs.Said.{verdict_of};
ghost use Rattle.verdict.specs.Program as Spec;

use checker::check::Candidate;
use checker::verdict::Refused;
use layout::Layout;
use std::io::Write;
use std::{fmt, io};

// The longest module, in bytes.
const LONGEST_MODULE: usize = layout::LARGEST as usize;

// One byte more, by which a longer input is told.
const SPACE: usize = LONGEST_MODULE + 1;

// What is said of a module of so many words.
#[derive(Clone, Copy)]
struct Answer {
    said: Result<(), Refused>,
    words: usize,
}

impl fmt::Display for Answer {
    fn fmt<W: fmt::Write>(&self, f: &mut fmt::Formatter<W>) -> fmt::Result {
        match self.said {
            Ok(()) => write!(f, "accept {}", self.words),
            Err(
                Refused {
                    rule,
                    place: Some(place),
                },
            ) => write!(f, "refuse {} {place}", u32::from(rule)),
            Err(Refused { rule, place: None }) => write!(f, "refuse {} -", u32::from(rule)),
        }
    }
}

// The module's length is its code size: a longer input than the longest module is no code size.
#[tactic(auto, using(crate::proofs::Program::judged))]
fn judge(image: &[u8]) -> Result<(), Refused>
    requires { length image.now < 2 ^ 32 }
    ensures { verdict_of result ≡ Spec.verdict_of image.now }
{
    let layout = Layout {
        code_base: 0x10000,
        code_size: image.len() as u32,
        data_base: 0x20000,
        data_size: 64,
    };
    let candidate = Candidate {
        layout,
        memory_length: 196608,
        image,
    };
    candidate.check()
}

fn main(rt: HostRuntime) -> io::Result<()> {
    // Of fixed size, as nothing is allocated.
    let mut space = [0u8; SPACE];
    let image = input::read_part(&mut rt.stdin(), &mut space)?;
    let said = judge(image);
    let words = image.len() / 4;
    writeln!(rt.stdout(), "{}", Answer { said, words })
}
