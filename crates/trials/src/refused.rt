// What is heard of a call: its answer, or the number and place of its refusal.
use model::faults::TextFault;

// The numbers that the rules give, by which the trials know a refusal.
#[derive(Clone, Copy, PartialEq, Eq, Debug)]
pub struct Refused(pub u8, pub usize);

impl From<TextFault> for Refused {
    fn from(fault: TextFault) -> Refused {
        Refused(fault.number(), fault.place())
    }
}

pub fn heard<T>(answer: Result<T, TextFault>) -> Result<T, Refused> {
    Ok(answer?)
}
