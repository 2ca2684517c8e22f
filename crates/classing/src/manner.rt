// How answers are told.
use crate::names::NotAName;
use std::str::FromStr;

#[derive(Clone, Copy, PartialEq, Eq)]
pub(crate) enum Manner {
    // as other programs read them
    Letter,
    // with plain words for a person behind
    Words,
}

impl FromStr for Manner {
    type Err = NotAName;

    fn from_str(argument: &str) -> Result<Manner, NotAName> {
        match argument {
            "--words" => Ok(Manner::Words),
            _ => Err(NotAName),
        }
    }
}
