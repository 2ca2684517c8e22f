// Refusals in plain words.
ghost use Rattle.std.specs.Prelude.{Some};
ghost use Rattle.records.specs.RefusalTexts.{part_text, reason_text, refusal_text};

use super::{Part, Reason, Refusal};
use std::error::Error;
use std::fmt;

impl fmt::Display for Part {
    ghost output = { λ part. Some (part_text part) };

    fn fmt<W: fmt::Write>(&self, f: &mut fmt::Formatter<W>) -> fmt::Result {
        f.write_str(match self {
            Part::Words => "words",
            Part::Quantity => "quantity",
            Part::Standard => "standard",
            Part::Book => "book",
        })
    }
}

impl fmt::Display for Reason {
    ghost output = { λ reason. Some (reason_text reason) };

    fn fmt<W: fmt::Write>(&self, f: &mut fmt::Formatter<W>) -> fmt::Result {
        f.write_str(match self {
            Reason::Layout => "a word is absent, surplus or of another kind than the layout's",
            Reason::Range => {
                "a number, a node or a zero bit breaks its range, or the nodes are equal"
            }
            Reason::Measure => "the value, the back value or the due sum is not accepted",
            Reason::Observation => "the length or the readings are not accepted",
            Reason::Form => "the form of the circuit is not accepted",
            Reason::Taken => "the number already stands",
            Reason::Absent => "the number does not stand",
            Reason::InUse => "a standing circuit uses the leg",
            Reason::Twice => "the leg is named twice",
            Reason::Broken => "the leg does not begin where the one before it ended",
            Reason::NoLeg => "no leg stands",
            Reason::Loose => "no standing circuit uses the leg",
            Reason::NoClass => "the class is not 1 to 5",
            Reason::TooFew => "fewer words than misses",
        })
    }
}

// The number, the part, the place, and the reason in words.
impl fmt::Display for Refusal {
    ghost output = { λ refusal. Some (refusal_text refusal) };

    fn fmt<W: fmt::Write>(&self, f: &mut fmt::Formatter<W>) -> fmt::Result {
        let Refusal { reason, place } = *self;
        let (number, part) = (reason.number(), reason.part());
        write!(f, "{number} {part} {place}: {reason}")
    }
}

impl Error for Refusal {}
