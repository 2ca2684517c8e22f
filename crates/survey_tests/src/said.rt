// What a call said: nothing, or a refusal by number and place, as a caller is told it.
use records::refusal::Fault;

// No refusal has the number 0.
pub(crate) const DONE: (u8, u32) = (0, 0);

// Want of memory is no refusal, and no call here should meet it.
const NO_MEMORY: (u8, u32) = (255, 0);

pub(crate) fn said<A: Drop, E: Into<Fault>>(res: Result<A, E>) -> (u8, u32) {
    let Err(error) = res else {
        return DONE;
    };
    match error.into() {
        Fault::Refused(refusal) => (refusal.reason.number(), refusal.place),
        Fault::Memory => NO_MEMORY,
    }
}
