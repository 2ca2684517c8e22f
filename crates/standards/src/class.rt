// The classes of a standard, 1, the best, to 5.
ghost use Rattle.std.specs.Prelude.{◌≡◌};
ghost use Rattle.std.specs.Result.{result_ok};
ghost use Rattle.records.specs.declared.refusal.Reason.TheVariants as reasons;
ghost use Rattle.standards.specs.Classes.{class_number, class_at, Named};

use records::refusal::{Reason, Refusal};

#[derive(Clone, Copy, PartialEq, Eq, Debug)]
pub enum Class {
    First = 1,
    Second = 2,
    Third = 3,
    Fourth = 4,
    Fifth = 5,
}

// A number that is no class.
#[derive(Clone, Copy, PartialEq, Eq, Debug)]
pub struct NoClass;

impl Class {
    pub fn number(self) -> u8
        ensures { result ≡ class_number self }
    {
        self as u8
    }
}

// The class of a number, if it is one of the five.
impl TryFrom<u8> for Class {
    type Error = NoClass;

    ghost try_from_gives = { λ number r. (result_ok r ≡ class_at number) × Named number (result_ok r) };

    fn try_from(number: u8) -> Result<Class, NoClass> {
        match number {
            1 => Ok(Class::First),
            2 => Ok(Class::Second),
            3 => Ok(Class::Third),
            4 => Ok(Class::Fourth),
            5 => Ok(Class::Fifth),
            _ => Err(NoClass),
        }
    }
}

impl From<NoClass> for Refusal {
    ghost from_gives = { λ _ r. r ≡ record { reason = reasons.NoClass; place = 0 } };

    fn from(_number: NoClass) -> Refusal {
        Reason::NoClass.at(0)
    }
}
