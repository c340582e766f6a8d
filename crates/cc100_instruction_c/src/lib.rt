// Words read and written by number, for C. A crate of its own: one is built for other crates or for C, not for both, and `vectors` calls these too.
#![tactic(auto)]

ghost use Rattle.std.specs.Prelude.{◌≡◌};
ghost use Rattle.isa.specs.Reading.{read_of};
ghost use Rattle.isa.specs.Number.{kind_of};
ghost use Rattle.cc100_instruction.specs.Instruction.{read_answer, write_numbered};

use cc100_instruction::{ReadAnswer, WriteAnswer};

#[unsafe(no_mangle)]
pub extern "C" fn cc100_read(word: u32) -> ReadAnswer
    ensures { result ≡ read_answer (read_of word) }
{
    cc100_instruction::cc100_read(word)
}

// Numbers, as the C interface has them.
#[unsafe(no_mangle)]
pub extern "C" fn cc100_write(
    kind: u32,
    rs: u32,
    rt: u32,
    rd: u32,
    shift: u32,
    value: u32,
) -> WriteAnswer
    ensures { result ≡ write_numbered (kind_of kind) rs rt rd shift value }
{
    cc100_instruction::cc100_write(kind, rs, rt, rd, shift, value)
}
