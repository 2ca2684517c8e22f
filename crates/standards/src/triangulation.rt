// The triangulation standard.
ghost use Rattle.standards.specs.Triangulation.{triangulation_rules};

use crate::class_set::ClassSet;
use crate::finding::{CircuitFinding, Directions, Form, LegFinding, MORE_LESS_LESS, WholeFinding};
use crate::limits::{at_least, at_most, at_most_each};
use crate::standard::Standard;
use records::leg::{Length, Readings};

#[derive(Clone, Copy)]
pub struct TriangulationStandard;

// The limits of classes 1 to 5; all but the positions in 0.01 seconds of arc.
pub const POSITIONS: [u16; 5] = [16, 16, 12, 4, 2];

pub const DEVIATION: [u16; 5] = [40, 50, 80, 120, 200];

pub const LEAST_COUNT: [u16; 5] = [20, 20, 100, 100, 100];

pub const CLOSURE: [u16; 5] = [300, 300, 500, 500, 1000];

pub const AVERAGE_CLOSURE: [u16; 5] = [100, 120, 200, 300, 500];

const TRIANGLE: u8 = 3;

impl Standard for TriangulationStandard {
    ghost meaning = { λ _. triangulation_rules };

    fn directions(&self) -> Directions {
        MORE_LESS_LESS
    }

    fn accepts_length(&self, length: Length) -> bool {
        length.metres == 0
    }

    fn accepts_readings(&self, readings: Readings) -> bool {
        readings.a >= 1 && readings.c >= 1
    }

    fn accepts_form(&self, form: Form) -> bool {
        form.closed && form.legs == TRIANGLE
    }

    fn leg_rules(&self) -> u8 {
        3
    }

    fn circuit_rules(&self) -> u8 {
        1
    }

    fn whole_rules(&self) -> u8 {
        1
    }

    fn leg_classes(&self, rule: u8, finding: &LegFinding) -> ClassSet {
        match rule {
            0 => at_least(finding.readings.a, POSITIONS),
            1 => at_most(finding.readings.b.into(), DEVIATION),
            2 => at_most(finding.readings.c.into(), LEAST_COUNT),
            _ => ClassSet::all(),
        }
    }

    fn circuit_classes(&self, rule: u8, finding: &CircuitFinding) -> ClassSet {
        match rule {
            0 => at_most(finding.closure, CLOSURE),
            _ => ClassSet::all(),
        }
    }

    fn whole_classes(&self, rule: u8, finding: &WholeFinding) -> ClassSet {
        match rule {
            0 => at_most_each(finding.closures, AVERAGE_CLOSURE, finding.circuits),
            _ => ClassSet::all(),
        }
    }
}
