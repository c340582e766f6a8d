// A state from its bytes.
ghost use Rattle.std.specs.Prelude.{◌≡◌};
ghost use Rattle.codec.specs.Bytes as Spec;

use crate::LENGTH;
use effect::effect::Special;
use machine::state::State;
use refusal::Refusal;
use word::bytes::words;

// 17's rules of bytes: their number, and an LL word of at most 1. No `TryFrom`, as neither the bytes nor the state are a type of this crate.
pub fn decode(bytes: &[u8]) -> Result<State, Refusal>
    ensures { result ≡ Spec.decoded_of bytes.now }
{
    let Ok(bytes) = <&[u8; LENGTH]>::try_from(bytes) else {
        return Err(Refusal::State);
    };
    let [hi, lo, pc, next_pc, ll, bad, status, cause, epc] = words::<9>(bytes, 128);
    if ll > 1 {
        return Err(Refusal::State);
    }
    let registers = words::<32>(bytes, 0);
    Ok(State {
        registers,
        special: Special {
            hi,
            lo,
            pc,
            next_pc,
            ll: ll == 1,
            bad,
            status,
            cause,
            epc,
        },
    })
}
