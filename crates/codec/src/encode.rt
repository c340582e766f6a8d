// A state to its bytes.
ghost use Rattle.std.specs.Prelude.{◌≡◌, ◌+◌, ◌*◌, ◌≤◌};
ghost use Rattle.refusal.specs.Refusal.{refused_number};
ghost use Rattle.codec.specs.Bytes as Spec;
ghost use Rattle.codec.specs.Stores.{stores_of};

use crate::LENGTH;
use machine::state::State;
use refusal::Refusal;
use word::bytes::store;

// From byte `at` on.
fn put<const N: usize>(words: [u32; N], bytes: &mut [u8; LENGTH], at: usize)
    requires { at + 4 * N ≤ 164 }
    ensures { bytes.new ≡ stores_of bytes.old at words.entry }
{
    // Not over the bytes by chunks_exact_mut: what is written through its parts is not known when the loan is over.
    for (k, word) in words.iter().enumerate() {
        store::<4>(bytes, at + 4 * k, *word);
    }
}

// A refusal leaves the bytes as they were. No `From`, as neither the state nor the bytes are a type of this crate.
#[tactic(auto, unfolding(crate::specs::Bytes::encoded_of))]
pub fn encode(s: State, bytes: &mut [u8]) -> Result<(), Refusal>
    ensures { Spec.encoded (refused_number result) bytes.new ≡ Spec.encoded_of s bytes.old }
{
    let Some(bytes) = bytes.as_mut_array::<LENGTH>() else {
        return Err(Refusal::State);
    };
    let c = s.special;
    let ll = u32::from(c.ll);
    put::<32>(s.registers, bytes, 0);
    put::<9>(
        [
            c.hi, c.lo, c.pc, c.next_pc, ll, c.bad, c.status, c.cause, c.epc,
        ],
        bytes,
        128,
    );
    Ok(())
}
