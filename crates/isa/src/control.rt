// The control registers by number.
use refusal::Refusal;

#[derive(Clone, Copy)]
pub enum Control {
    BadAddress,
    Status,
    Cause,
    ReturnAddress,
}

impl TryFrom<u32> for Control {
    type Error = Refusal;

    ghost use Rattle.isa.specs.Control.{IsControlAt};

    ghost try_from_gives = { IsControlAt };

    #[inline(always)]
    fn try_from(number: u32) -> Result<Control, Refusal> {
        match number {
            8 => Ok(Control::BadAddress),
            12 => Ok(Control::Status),
            13 => Ok(Control::Cause),
            14 => Ok(Control::ReturnAddress),
            _ => Err(Refusal::IllegalField),
        }
    }
}
