// What a leg of the survey shows, for a standard to judge.
ghost use Rattle.std.specs.Prelude.{◌≡◌};
ghost use Rattle.records.specs.Legs.{leg_record};
ghost use Rattle.standards.specs.Observed.{leg_finding};

use crate::finding::LegFinding;
use quantities::quantity::Quantity;
use records::leg::Leg;

impl LegFinding {
    pub fn of<Q: Quantity>(quantity: &Q, leg: &Leg) -> LegFinding
        ensures { result ≡ leg_finding (Q.Quantity.meaning quantity.now) (leg_record leg.now) }
    {
        LegFinding {
            length: leg.length,
            running: leg.running(),
            misclosure: quantity.size(quantity.misclosure(leg.value, leg.back)),
            readings: leg.readings,
        }
    }
}
