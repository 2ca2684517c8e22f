// What a record says, in plain words.
use crate::kinds::Kind;
use crate::surveys::Survey;
use crate::units::Measure;
use quantities::acceptance::{accept_due, accept_leg};
use quantities::quantity::Quantity;
use records::circuit::{Circuit, LegUse, Sense};
use records::leg::{Leg, Readings, Running};
use records::refusal::{Fault, Refusal};
use std::alloc::Global;
use std::fmt;

// A leg, and what its quantity makes of it.
#[derive(Clone, Copy)]
pub(crate) struct LegShown {
    survey: Survey,
    leg: Leg,
    value: Measure,
    back: Option<Measure>,
    contribution: Measure,
    misclosure: Measure,
}

#[derive(Drop)]
pub(crate) struct CircuitShown {
    circuit: Circuit,
    due: Measure,
}

// A leg as a circuit runs it.
#[derive(Clone, Copy)]
struct Run(LegUse);

// The leg that the words are, where the survey's quantity accepts it.
pub(crate) fn accepted_leg<K: Kind>(words: &[u32]) -> Result<Leg, Refusal> {
    let leg = Leg::decode(words)?;
    accept_leg(&K::QUANTITY, &leg)?;
    Ok(leg)
}

pub(crate) fn show_leg<K: Kind>(words: &[u32]) -> Result<LegShown, Refusal> {
    let leg = accepted_leg::<K>(words)?;
    Ok(LegShown {
        survey: K::SURVEY,
        leg,
        value: K::read(leg.value),
        back: leg.back.map(|back| K::read(back)),
        contribution: K::measure(K::QUANTITY.contribution(leg.value, leg.back)),
        misclosure: K::measure(K::QUANTITY.misclosure(leg.value, leg.back)),
    })
}

pub(crate) fn show_circuit<K: Kind>(heap: Global, words: &[u32]) -> Result<CircuitShown, Fault> {
    let circuit = Circuit::decode(heap, words)?;
    accept_due(&K::QUANTITY, circuit.due)?;
    let due = K::read(circuit.due);
    Ok(CircuitShown { circuit, due })
}

impl fmt::Display for LegShown {
    fn fmt<W: fmt::Write>(&self, f: &mut fmt::Formatter<W>) -> fmt::Result {
        let leg = &self.leg;
        write!(
            f,
            "leg {}, {} {} to {}: value {}",
            leg.number.value,
            self.survey.node(),
            leg.start.value,
            leg.end.value,
            self.value
        )?;
        if let Some(back) = self.back {
            write!(f, ", back {back}")?;
        }
        let Readings { a, b, c } = leg.readings;
        let running = match leg.running() {
            Running::Single => "single",
            Running::Double => "double",
        };
        write!(
            f,
            ", length {} m, readings {a} {b} {c}, {running} run; contribution {}, own misclosure {}",
            leg.length.metres, self.contribution, self.misclosure
        )
    }
}

impl fmt::Display for Run {
    fn fmt<W: fmt::Write>(&self, f: &mut fmt::Formatter<W>) -> fmt::Result {
        let Run(LegUse { leg, sense }) = self;
        match sense {
            Sense::Along => write!(f, "{}", leg.value),
            Sense::Against => write!(f, "{} against", leg.value),
        }
    }
}

impl fmt::Display for CircuitShown {
    fn fmt<W: fmt::Write>(&self, f: &mut fmt::Formatter<W>) -> fmt::Result {
        let Circuit { number, legs, .. } = &self.circuit;
        write!(f, "circuit {}: due sum {}, legs ", number.value, self.due)?;
        f.write_joined(legs.iter().map(|used| Run(*used)), ", ")
    }
}
