// Heights as a quantity.
ghost use Rattle.std.specs.Prelude.{◌≡◌};
ghost use Rattle.quantities.specs.Heights.{accepts_height};
ghost use Rattle.quantities.specs.Meanings.{heights_terms};

use super::{Height, Heights};
use crate::quantity::Quantity;
use records::word::Payload;

// The greatest height difference of a leg, up or down.
const GREATEST: i32 = 50_000_000;

const DUE: u32 = 0;

fn accepts(payload: Payload) -> bool
    ensures { result ≡ accepts_height payload.bits }
{
    (-GREATEST..=GREATEST).contains(&payload.signed())
}

impl Quantity for Heights {
    type Element = Height;

    ghost meaning = { λ _. heights_terms };

    fn accepts_value(&self, value: Payload) -> bool {
        accepts(value)
    }

    fn accepts_back(&self, back: Option<Payload>) -> bool {
        back.is_none_or(accepts)
    }

    fn accepts_due(&self, due: Payload) -> bool {
        due.bits == DUE
    }

    // a match, here and below: by `map_or` the proof did not close without a lemma that is longer than the two arms
    fn contribution(&self, value: Payload, back: Option<Payload>) -> Height {
        let forth = i64::from(value.signed());
        match back {
            None => Height::of_whole(2 * forth),
            Some(back) => Height::of_whole(forth - i64::from(back.signed())),
        }
    }

    fn misclosure(&self, value: Payload, back: Option<Payload>) -> Height {
        match back {
            None => self.zero(),
            Some(back) => Height::of_whole(i64::from(value.signed()) + i64::from(back.signed())),
        }
    }

    fn due(&self, due: Payload) -> Height {
        Height::of_whole(i64::from(due.bits))
    }

    fn zero(&self) -> Height {
        Height::zero()
    }

    fn sum(&self, a: Height, b: Height) -> Height {
        a.sum(b)
    }

    fn opposite(&self, a: Height) -> Height {
        a.opposite()
    }

    fn size(&self, a: Height) -> u64 {
        a.size()
    }
}
