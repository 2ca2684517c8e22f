// What a standard refuses: a leg's length or readings, and a circuit's form.
ghost use Rattle.std.specs.Prelude.{◌≡◌, true, is_ok, Decides};
ghost use Rattle.records.specs.Legs.{leg_record};
ghost use Rattle.records.specs.Refusals.{first, unless};
ghost use Rattle.standards.specs.Acceptance.{observation_refusals, form_refusals, Observed};

use crate::finding::Form;
use crate::standard::Standard;
use records::leg::Leg;
use records::refusal::{Reason, Refusal};

// The words of a leg that hold its length and its readings, and that of a circuit which stands for its form.
const LENGTH_PLACE: u32 = 2;

const READINGS_PLACE: u32 = 3;

const FORM_PLACE: u32 = 0;

pub fn accept_leg<S: Standard>(standard: &S, leg: &Leg) -> Result<(), Refusal>
    ensures value { result ≡ unless (first (observation_refusals (S.Standard.meaning standard.now) (leg_record leg.now))) tt }
    ensures accepted { Decides (is_ok result) (Observed (S.Standard.meaning standard.now) (leg_record leg.now)) }
{
    if !standard.accepts_length(leg.length) {
        return Err(Reason::Observation.at(LENGTH_PLACE));
    }
    if !standard.accepts_readings(leg.readings) {
        return Err(Reason::Observation.at(READINGS_PLACE));
    }
    Ok(())
}

pub fn accept_form<S: Standard>(standard: &S, form: Form) -> Result<(), Refusal>
    ensures value { result ≡ unless (first (form_refusals (S.Standard.meaning standard.now) form)) tt }
    ensures accepted { Decides (is_ok result) ((S.Standard.meaning standard.now).accepts_form form ≡ true) }
{
    if !standard.accepts_form(form) {
        return Err(Reason::Form.at(FORM_PLACE));
    }
    Ok(())
}
