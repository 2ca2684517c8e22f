// Angles as a quantity.
ghost use Rattle.quantities.specs.Meanings.{angles_terms};

use super::{Angle, Angles, GREATEST};
use crate::quantity::Quantity;
use records::word::Payload;

// Half a circle, less and more 60 seconds of arc.
const LEAST_DUE: u32 = 64_794_000;

const GREATEST_DUE: u32 = 64_806_000;

impl Quantity for Angles {
    type Element = Angle;

    ghost meaning = { λ _. angles_terms };

    fn accepts_value(&self, value: Payload) -> bool {
        u64::from(value.bits) <= GREATEST
    }

    fn accepts_back(&self, back: Option<Payload>) -> bool {
        back.is_none()
    }

    fn accepts_due(&self, due: Payload) -> bool {
        (LEAST_DUE..=GREATEST_DUE).contains(&due.bits)
    }

    fn contribution(&self, value: Payload, _back: Option<Payload>) -> Angle {
        Angle::of_whole(i64::from(value.bits))
    }

    fn misclosure(&self, _value: Payload, _back: Option<Payload>) -> Angle {
        self.zero()
    }

    fn due(&self, due: Payload) -> Angle {
        Angle::of_whole(i64::from(due.bits))
    }

    fn zero(&self) -> Angle {
        Angle::zero()
    }

    fn sum(&self, a: Angle, b: Angle) -> Angle {
        a.sum(b)
    }

    fn opposite(&self, a: Angle) -> Angle {
        a.opposite()
    }

    fn size(&self, a: Angle) -> u64 {
        a.size()
    }
}
