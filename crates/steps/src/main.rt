// Reads cases of 256 bytes from standard input and prints what their steps give, a line for each.
// A case is 43 little-endian words, the state in the order of document 01, the memory's length (at most 84) and the number of steps to take,
// and 84 bytes, the first of them the memory. A line is the last step's number, then each word of the state that changed, by its place
// in that order, and each byte of memory that changed, by its address.
#![tactic(auto)]

ghost use Rattle.std.specs.Prelude.{◌≤◌, IfOk, IfSome};

use std::io;
use std::io::{Read, Write};
use word::bytes::load;

// The bytes of a case, and where the memory's length, the number of steps and the memory stand in it, behind the state.
const CASE: usize = 256;

const LENGTH: usize = codec::LENGTH;

const COUNT: usize = LENGTH + 4;

const MEMORY: usize = COUNT + 4;

// The longest memory of a case.
const SPACE: usize = CASE - MEMORY;

// More cases are not read.
const CASES: u32 = 1000000;

// A function that writes and no Display, here and below: what is written are parts of a line, as many as differ, out of two buffers.
fn print_state(
    out: &mut impl Write,
    case: &[u8; CASE],
    state: &[u8; codec::LENGTH],
) -> io::Result<()> {
    let words = case[..LENGTH].chunks_exact(4).zip(state.chunks_exact(4));
    for (i, (old, new)) in words.enumerate() {
        if old != new {
            write!(out, " {i}={:08x}", load::<4>(new, 0))?;
        }
    }
    Ok(())
}

fn print_memory(out: &mut impl Write, before: &[u8], after: &[u8]) -> io::Result<()> {
    for (i, (old, new)) in before.iter().zip(after).enumerate() {
        if old != new {
            write!(out, " m{i}={new:02x}")?;
        }
    }
    Ok(())
}

// The number of the last step, as cc100_step answers it to C: an exit ends them.
fn steps(state: &mut [u8], memory: &mut [u8], count: u32) -> u32 {
    (0..count)
        .map(|_| cc100_step::cc100_step(state, memory).number)
        .find(|number| *number != 0)
        .unwrap_or(0)
}

// length is at most SPACE, which the clause says by its number. Beside the case, not in a type with it: the buffer is filled anew for each case, and
// its length is told when it is full.
fn run_case(out: &mut impl Write, case: &[u8; CASE], length: usize) -> io::Result<()>
    requires { length ≤ 84 }
{
    // Of fixed size, as nothing is allocated.
    let mut state = [0u8; codec::LENGTH];
    let mut space = [0u8; SPACE];
    state.copy_from_slice(&case[..LENGTH]);
    space.copy_from_slice(&case[MEMORY..]);
    let number = steps(&mut state, &mut space[..length], load::<4>(case, COUNT));
    write!(out, "{number}")?;
    print_state(out, case, &state)?;
    print_memory(out, &case[MEMORY..], &space)?;
    writeln!(out)
}

// The length of the next case's memory, if there is a case.
fn read_case(input: &mut impl Read, case: &mut [u8; CASE]) -> io::Result<Option<usize>>
    ensures { IfOk result (λ answer. IfSome answer (λ length. length ≤ 84)) }
{
    if input::read_part(input, case)?.len() < CASE {
        return Ok(None);
    }
    let length = load::<4>(case, LENGTH) as usize;
    Ok((length <= SPACE).then_some(length))
}

fn main(rt: HostRuntime) -> io::Result<()> {
    let mut input = rt.stdin();
    let mut out = rt.stdout();
    // Of fixed size, as nothing is allocated.
    let mut case = [0u8; CASE];
    // A `for` of so many turns, as a loop has to be known to end.
    for _ in 0..CASES {
        let Some(length) = read_case(&mut input, &mut case)? else {
            return Ok(());
        };
        run_case(&mut out, &case, length)?;
    }
    Ok(())
}
