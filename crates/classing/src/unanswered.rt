// Why a line has no answer. The conversions are by hand, since two of them drop what they are given, which no derive does.
use crate::forms::Form;
use records::refusal::{Fault, Refusal};
use std::alloc::{AllocError, AllocFailed};
use std::fmt;

#[derive(Clone, Copy)]
pub(crate) enum Unanswered {
    // what would be a call: one of this form, or of any
    NotACall(Option<Form>),
    NoBook,
    Refused(Refusal),
    NoMemory,
}

impl From<Refusal> for Unanswered {
    fn from(refusal: Refusal) -> Unanswered {
        Unanswered::Refused(refusal)
    }
}

impl From<AllocError> for Unanswered {
    fn from(_error: AllocError) -> Unanswered {
        Unanswered::NoMemory
    }
}

impl<T: Drop> From<AllocFailed<T>> for Unanswered {
    fn from(_refused: AllocFailed<T>) -> Unanswered {
        Unanswered::NoMemory
    }
}

impl From<Fault> for Unanswered {
    fn from(fault: Fault) -> Unanswered {
        match fault {
            Fault::Refused(refusal) => Unanswered::Refused(refusal),
            Fault::Memory => Unanswered::NoMemory,
        }
    }
}

impl fmt::Display for Unanswered {
    fn fmt<W: fmt::Write>(&self, f: &mut fmt::Formatter<W>) -> fmt::Result {
        match self {
            Unanswered::NotACall(_) => write!(f, "not a call"),
            Unanswered::NoBook => write!(f, "no book"),
            Unanswered::Refused(refusal) => write!(f, "refused {refusal}"),
            Unanswered::NoMemory => write!(f, "no memory"),
        }
    }
}
