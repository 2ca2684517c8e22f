// A leg as a circuit runs it, and where it begins and ends.
ghost use Rattle.std.specs.Prelude.{◌≡◌};
ghost use Rattle.records.specs.Legs.{leg_record};
ghost use Rattle.plainbook.specs.Surveys.{begins, ends};

use records::circuit::Sense;
use records::leg::Leg;

#[derive(Clone, Copy)]
pub struct Run<'a> {
    pub leg: &'a Leg,
    pub sense: Sense,
}

impl<'a> Run<'a> {
    // The nodes where it begins and ends.
    pub fn nodes(&self) -> (u16, u16)
        ensures { result ≡ (begins self.now.sense (leg_record self.now.leg.now), ends self.now.sense (leg_record self.now.leg.now)) }
    {
        let (start, end) = (self.leg.start.value, self.leg.end.value);
        match self.sense {
            Sense::Along => (start, end),
            Sense::Against => (end, start),
        }
    }
}
