// Exceptions, privileged instructions and SYNC. b is GPR[rt].
#![tactic(auto)]

ghost use Rattle.std.specs.Prelude.{◌≡◌};
ghost use Rattle.system.specs.System as Spec;

use effect::effect::{Effect, Special};
use effect::exit::Exit;
use isa::control::Control;
use isa::kind::System;
use refusal::Ending;

// The code of BREAK and SYSCALL that raises no exception.
const RESERVED: u32 = 15;

#[tactic(auto, unfolding(crate::specs::System::is_user))]
pub fn is_user(status: u32) -> bool
    ensures { result ≡ Spec.is_user status }
{
    (status >> 3) & 1 == 1
}

fn restored(status: u32) -> u32
    ensures { result ≡ Spec.restored status }
{
    ((status >> 1) & 0b11) + (((status >> 4) & 0b11) << 3) + (((status >> 7) & 0b11_1111) << 6)
}

// Field rd of MFC0 and MTC0. Every other number, which no word that reads as one of them has, stands for the return address.
#[tactic(auto, unfolding(crate::specs::System::control_named))]
pub fn control_named(rd: u32) -> Control
    ensures { result ≡ Spec.control_named rd }
{
    Control::try_from(rd).unwrap_or(Control::ReturnAddress)
}

#[tactic(auto, unfolding(crate::specs::System::control_of))]
fn control(s: Special, c: Control) -> u32
    ensures { result ≡ Spec.control_of s c }
{
    match c {
        Control::BadAddress => s.bad,
        Control::Status => s.status,
        Control::Cause => s.cause,
        Control::ReturnAddress => s.epc,
    }
}

#[tactic(auto, unfolding(crate::specs::System::system_call_of))]
fn system_call(code: u32, status: u32) -> Exit
    ensures { result ≡ Spec.system_call_of code status }
{
    if (code == RESERVED) & !is_user(status) {
        Exit::StopCores
    } else {
        Exit::SystemCall
    }
}

#[tactic(auto, unfolding(crate::specs::System::breakpoint_of))]
fn breakpoint(code: u32) -> Exit
    ensures { result ≡ Spec.breakpoint_of code }
{
    if code == RESERVED {
        Exit::DebugBreak
    } else {
        Exit::Breakpoint
    }
}

#[tactic(auto, unfolding(crate::specs::System::privileged))]
pub fn system(k: System, rt: u32, rd: u32, b: u32, v: u32, s: Special) -> Result<Effect, Exit>
    ensures { result ≡ Spec.system_of k rt rd b v s }
{
    let status = s.status;
    match k {
        System::Syscall => Err(system_call(v, status)),
        System::Break => Err(breakpoint(v)),
        System::Rfe => {
            Exit::PrivilegedInstruction.when(is_user(status))?;
            Ok(Effect::Return(restored(status)))
        }
        System::Mfc0 => {
            Exit::PrivilegedData.when(is_user(status))?;
            Ok(Effect::Write(rt, control(s, control_named(rd))))
        }
        System::Mtc0 => {
            Exit::PrivilegedData.when(is_user(status))?;
            Ok(Effect::Control(control_named(rd), b))
        }
        System::Sync => Ok(Effect::Advance),
    }
}
