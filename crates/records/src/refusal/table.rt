// Each reason's number and part, and refusals made.
ghost use Rattle.std.specs.Prelude.{◌≡◌};
ghost use Rattle.records.specs.Refusals.{row, refusal, unless};

use super::{Part, Reason, Refusal};

impl Reason {
    pub fn number(&self) -> u8
        ensures { result ≡ (row self.now).number }
    {
        *self as u8
    }

    pub fn part(&self) -> Part
        ensures { result ≡ (row self.now).part }
    {
        match self {
            Reason::Layout | Reason::Range => Part::Words,
            Reason::Measure => Part::Quantity,
            Reason::Observation | Reason::Form => Part::Standard,
            _ => Part::Book,
        }
    }

    // Refuses for this reason, if there is a place to tell.
    pub fn refuse(self, place: Option<u32>) -> Result<(), Refusal>
        ensures { result ≡ unless (refusal self place) tt }
    {
        match place {
            None => Ok(()),
            Some(place) => Err(self.at(place)),
        }
    }

    // The refusal for this reason at a place.
    pub fn at(self, place: u32) -> Refusal
        ensures { result ≡ record { reason = self; place = place } }
    {
        Refusal {
            reason: self,
            place,
        }
    }
}
