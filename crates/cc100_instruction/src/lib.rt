// Words read and written by number.
#![tactic(auto)]

ghost use Rattle.std.specs.Prelude.{◌≡◌};
ghost use Rattle.isa.specs.Reading.{read_of};
ghost use Rattle.isa.specs.Number.{kind_of};
ghost use Rattle.cc100_instruction.specs.Instruction.{read_answer, result_answer, write_numbered};

use isa::kind::{Instruction, Kind};
use refusal::Refusal;

// struct cc100_instruction; kind 0: no instruction.
#[repr(C)]
#[derive(Clone, Copy)]
pub struct ReadAnswer {
    pub kind: u32,
    pub rs: u32,
    pub rt: u32,
    pub rd: u32,
    pub shift: u32,
    pub value: u32,
}

impl From<Option<Instruction>> for ReadAnswer {
    ghost from_gives = { λ reading answer. answer ≡ read_answer reading };

    fn from(reading: Option<Instruction>) -> ReadAnswer {
        match reading {
            Some(i) => ReadAnswer {
                kind: u32::from(i.kind),
                rs: i.rs,
                rt: i.rt,
                rd: i.rd,
                shift: i.shift,
                value: i.value,
            },
            None => ReadAnswer {
                kind: 0,
                rs: 0,
                rt: 0,
                rd: 0,
                shift: 0,
                value: 0,
            },
        }
    }
}

// struct cc100_written; number 0 or 18.
#[repr(C)]
#[derive(Clone, Copy)]
pub struct WriteAnswer {
    pub number: u32,
    pub word: u32,
}

impl From<Result<u32, Refusal>> for WriteAnswer {
    ghost from_gives = { λ written answer. answer ≡ result_answer written };

    fn from(written: Result<u32, Refusal>) -> WriteAnswer {
        match written {
            Ok(word) => WriteAnswer { number: 0, word },
            Err(refusal) => WriteAnswer {
                number: u32::from(refusal),
                word: 0,
            },
        }
    }
}

pub fn cc100_read(word: u32) -> ReadAnswer
    ensures { result ≡ read_answer (read_of word) }
{
    ReadAnswer::from(reader::read(word))
}

// Numbers, as the C interface has them.
pub fn cc100_write(kind: u32, rs: u32, rt: u32, rd: u32, shift: u32, value: u32) -> WriteAnswer
    ensures { result ≡ write_numbered (kind_of kind) rs rt rd shift value }
{
    let written = Kind::try_from(kind).and_then(|kind| {
        writer::write(Instruction {
            kind,
            rs,
            rt,
            rd,
            shift,
            value,
        })
    });
    WriteAnswer::from(written)
}
