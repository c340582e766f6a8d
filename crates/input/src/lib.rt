// Input into a buffer that the caller lends, so that nothing is allocated for it.
#![tactic(auto)]

ghost use Rattle.std.specs.Prelude.{◌≡◌, ◌<◌, ◌≤◌, IfOk, length, take};
ghost use Rattle.std.specs.Io.KnownBytes.{Consumes, IsAtEnd};

use std::io;
use std::io::Read;

// Reads until the buffer is full or the input ends, and answers how many bytes it put at the buffer's start. A loop of its own: the library's
// read_exact answers no count where the input ends early.
pub fn read_full<R: Read>(input: &mut R, buffer: &mut [u8]) -> io::Result<usize>
    ensures bound { IfOk result (λ n. n ≤ length buffer.new) }
    ensures bytes { IfOk result (λ n. Consumes (R.remaining input.old) (R.remaining input.new) (take n buffer.new)) }
    ensures end { IfOk result (λ n. n < length buffer.new → IsAtEnd (R.remaining input.new)) }
{
    let mut done = 0;
    while done < buffer.len() {
        let n = input.read(&mut buffer[done..])?;
        if n == 0 {
            return Ok(done);
        }
        done += n;
    }
    Ok(done)
}

// The part that was filled. It holds the buffer, so that the bytes are said of the part alone; what the loop leaves in the buffer is said by read_full.
pub fn read_part<'a, R: Read>(input: &mut R, buffer: &'a mut [u8]) -> io::Result<&'a [u8]>
    ensures bound { IfOk result (λ part. length part.now ≤ length buffer.old) }
    ensures bytes { IfOk result (λ part. Consumes (R.remaining input.old) (R.remaining input.new) part.now) }
    ensures end { IfOk result (λ part. length part.now < length buffer.old → IsAtEnd (R.remaining input.new)) }
{
    let n = read_full(input, buffer)?;
    Ok(&buffer[..n])
}
