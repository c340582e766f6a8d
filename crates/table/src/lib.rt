// The kind that a word can be, looked up in the four tables.
#![tactic(auto)]

ghost use Rattle.std.specs.Prelude.{◌≡◌, ◌++◌, get_or};
ghost use Rattle.word.specs.Field.{cut_of};
ghost use Rattle.table.specs.declared.tables.Entry.TheVariants.{Empty};
ghost use Rattle.table.specs.Tables.{opcodes, functions, conditions, controls, entry_of};

use crate::tables::*;
use isa::kind::Kind;
use word::field::Fields;

pub mod tables;

// The entry at place n of a table, or `other` where it has no such place. A line for each place and no index: the compiler makes of table and match
// one jump; with static arrays that are indexed, cc100_read took 1.2 to 1.8 times the time.
#[inline(always)]
fn entry_at(t: [Entry; 32], n: u32, other: Entry) -> Entry
    ensures { result ≡ get_or t n other }
{
    match n {
        0 => t[0],
        1 => t[1],
        2 => t[2],
        3 => t[3],
        4 => t[4],
        5 => t[5],
        6 => t[6],
        7 => t[7],
        8 => t[8],
        9 => t[9],
        10 => t[10],
        11 => t[11],
        12 => t[12],
        13 => t[13],
        14 => t[14],
        15 => t[15],
        16 => t[16],
        17 => t[17],
        18 => t[18],
        19 => t[19],
        20 => t[20],
        21 => t[21],
        22 => t[22],
        23 => t[23],
        24 => t[24],
        25 => t[25],
        26 => t[26],
        27 => t[27],
        28 => t[28],
        29 => t[29],
        30 => t[30],
        31 => t[31],
        _ => other,
    }
}

// The entry at place n of a table of 64 places, of its halves.
#[inline(always)]
fn entry_in(low: [Entry; 32], high: [Entry; 32], n: u32) -> Entry
    ensures { result ≡ get_or (low ++ high) n Empty }
{
    let beyond = entry_at(high, n.wrapping_sub(32), Entry::Empty);
    entry_at(low, n, beyond)
}

// A function for each table, which ties it to the definition of its name; what the four share is `entry_at` and `entry_in`, which know an array alone.
#[tactic(auto, unfolding(crate::specs::Tables::opcodes))]
fn by_opcode(n: u32) -> Entry
    ensures { result ≡ get_or opcodes n Empty }
{
    entry_in(OPCODES_LOW, OPCODES_HIGH, n)
}

#[tactic(auto, unfolding(crate::specs::Tables::functions))]
fn by_function(n: u32) -> Entry
    ensures { result ≡ get_or functions n Empty }
{
    entry_in(FUNCTIONS_LOW, FUNCTIONS_HIGH, n)
}

#[tactic(auto, unfolding(crate::specs::Tables::conditions))]
fn by_condition(n: u32) -> Entry
    ensures { result ≡ get_or conditions n Empty }
{
    entry_at(CONDITIONS, n, Entry::Empty)
}

#[tactic(auto, unfolding(crate::specs::Tables::controls))]
fn by_control(n: u32) -> Entry
    ensures { result ≡ get_or controls n Empty }
{
    entry_at(CONTROLS, n, Entry::Empty)
}

// The kind whose place a word leads to, if any. What its other fields must be is not looked at.
pub fn entry(w: u32) -> Option<Kind>
    ensures { result ≡ entry_of (cut_of w) }
{
    let f = Fields::from(w);
    let first = by_opcode(f.op);
    let last = match first {
        Entry::Special => by_function(f.funct),
        Entry::Regimm => by_condition(f.rt),
        Entry::Cop0 => by_control(f.rs),
        _ => first,
    };
    last.kind()
}
