// The levelling standard.
ghost use Rattle.standards.specs.Level.{level_rules};

use crate::class_set::ClassSet;
use crate::finding::{CircuitFinding, Directions, Form, LegFinding, MORE_LESS_LESS, WholeFinding};
use crate::limits::{at_least, at_most, less, square_at_most};
use crate::standard::Standard;
use records::leg::{Length, Readings, Running};

#[derive(Clone, Copy)]
pub struct LevelStandard;

// The limits of classes 1 to 5: sights in decimetres, misclosures and closures in millimetres for the root of the length
// in kilometres, lengths in metres.
pub const METHOD: [u16; 5] = [3, 3, 2, 2, 1];

pub const LONGEST_SIGHT: [u16; 5] = [500, 600, 600, 700, 900];

pub const SIGHT_DIFFERENCE: [u16; 5] = [40, 100, 100, 100, 100];

pub const OWN_MISCLOSURE: [u16; 5] = [3, 4, 6, 8, 12];

pub const CLOSURE: [u16; 5] = [4, 5, 6, 8, 12];

pub const SUMMED_MISCLOSURE: [u16; 5] = [3, 4, 6, 8, 12];

// where 0 is never: no length is less
pub const SINGLE_LENGTH: [u16; 5] = [0, 0, 0, 25_000, 10_000];

// Sizes in 0.01 mm and lengths in metres bring a factor of 10 to the squares. A closure sums doubled height differences, which
// makes it four times that.
pub const MISCLOSURE_FACTOR: u8 = 10;

pub const CLOSURE_FACTOR: u8 = 40;

const LONGEST: u32 = 50_000;

const BEST_METHOD: u8 = 3;

impl Standard for LevelStandard {
    ghost meaning = { λ _. level_rules };

    fn directions(&self) -> Directions {
        MORE_LESS_LESS
    }

    fn accepts_length(&self, length: Length) -> bool {
        (1..=LONGEST).contains(&length.metres)
    }

    fn accepts_readings(&self, readings: Readings) -> bool {
        (1..=BEST_METHOD).contains(&readings.a)
    }

    fn accepts_form(&self, _form: Form) -> bool {
        true
    }

    fn leg_rules(&self) -> u8 {
        4
    }

    fn circuit_rules(&self) -> u8 {
        3
    }

    fn whole_rules(&self) -> u8 {
        0
    }

    fn leg_classes(&self, rule: u8, finding: &LegFinding) -> ClassSet {
        let readings = finding.readings;
        match (rule, finding.running) {
            (0, _) => at_least(readings.a, METHOD),
            (1, _) => at_most(readings.b.into(), LONGEST_SIGHT),
            (2, _) => at_most(readings.c.into(), SIGHT_DIFFERENCE),
            (3, Running::Double) => square_at_most(
                finding.misclosure,
                MISCLOSURE_FACTOR,
                OWN_MISCLOSURE,
                finding.length.metres,
            ),
            _ => ClassSet::all(),
        }
    }

    fn circuit_classes(&self, rule: u8, finding: &CircuitFinding) -> ClassSet {
        let metres = finding.length.metres;
        match (rule, finding.form.closed, finding.running) {
            (0, true, _) => square_at_most(finding.closure, CLOSURE_FACTOR, CLOSURE, metres),
            (1, false, _) => square_at_most(
                finding.misclosure,
                MISCLOSURE_FACTOR,
                SUMMED_MISCLOSURE,
                metres,
            ),
            (2, _, Running::Single) => less(metres, SINGLE_LENGTH),
            _ => ClassSet::all(),
        }
    }

    fn whole_classes(&self, _rule: u8, _finding: &WholeFinding) -> ClassSet {
        ClassSet::all()
    }
}
