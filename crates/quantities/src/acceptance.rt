// Legs and due sums that a quantity accepts, and the refusal of any other.
ghost use Rattle.std.specs.Prelude.{◌≡◌};
ghost use Rattle.records.specs.Legs.{leg_record};
ghost use Rattle.records.specs.Refusals.{first, unless};
ghost use Rattle.quantities.specs.Acceptance.{unaccepted, measure_refusals, due_refusals};

use crate::quantity::Quantity;
use records::leg::Leg;
use records::refusal::{Reason, Refusal};
use records::word::Payload;

// The words of a record that hold a measure.
const VALUE_PLACE: u32 = 1;

const BACK_PLACE: u32 = 4;

const DUE_PLACE: u32 = 1;

fn accepted_at(accepted: bool, place: u32) -> Result<(), Refusal>
    ensures { result ≡ unless (unaccepted accepted place) tt }
{
    if accepted {
        Ok(())
    } else {
        Err(Reason::Measure.at(place))
    }
}

pub fn accept_leg<Q: Quantity>(quantity: &Q, leg: &Leg) -> Result<(), Refusal>
    ensures { result ≡ unless (first (measure_refusals (Q.Quantity.meaning quantity.now) (leg_record leg.now))) tt }
{
    accepted_at(quantity.accepts_value(leg.value), VALUE_PLACE)?;
    accepted_at(quantity.accepts_back(leg.back), BACK_PLACE)
}

pub fn accept_due<Q: Quantity>(quantity: &Q, due: Payload) -> Result<(), Refusal>
    ensures { result ≡ unless (first (due_refusals (Q.Quantity.meaning quantity.now) due.bits)) tt }
{
    accepted_at(quantity.accepts_due(due), DUE_PLACE)
}
