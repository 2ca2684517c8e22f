// The rules of the standards in plain words: what was found, and what a class asks.
use crate::surveys::Survey;
use crate::units::{Figure, Unit};
use standards::class::Class;
use standards::finding::{CircuitFinding, LegFinding, WholeFinding};
use standards::limits::limit;
use standards::{level, triangulation};
use std::fmt;

// A rule's name, the unit of its figures and the limits of its classes.
#[derive(Clone, Copy)]
struct Rule {
    name: &'static str,
    unit: Unit,
    limits: [u16; 5],
}

const METHOD: Rule = Rule {
    name: "method",
    unit: Unit::Method,
    limits: level::METHOD,
};

const LONGEST_SIGHT: Rule = Rule {
    name: "longest sight",
    unit: Unit::Decimetre,
    limits: level::LONGEST_SIGHT,
};

const SIGHT_DIFFERENCE: Rule = Rule {
    name: "sight difference",
    unit: Unit::Decimetre,
    limits: level::SIGHT_DIFFERENCE,
};

const OWN_MISCLOSURE: Rule = Rule {
    name: "own misclosure",
    unit: Unit::Millimetre,
    limits: level::OWN_MISCLOSURE,
};

const CIRCUIT_CLOSURE: Rule = Rule {
    name: "closure",
    unit: Unit::DoubledMillimetre,
    limits: level::CLOSURE,
};

const SUMMED_MISCLOSURE: Rule = Rule {
    name: "summed misclosure",
    unit: Unit::Millimetre,
    limits: level::SUMMED_MISCLOSURE,
};

const RUNNING: Rule = Rule {
    name: "running once over",
    unit: Unit::Metre,
    limits: level::SINGLE_LENGTH,
};

const POSITIONS: Rule = Rule {
    name: "positions",
    unit: Unit::One,
    limits: triangulation::POSITIONS,
};

const DEVIATION: Rule = Rule {
    name: "deviation of the mean",
    unit: Unit::Second,
    limits: triangulation::DEVIATION,
};

const LEAST_COUNT: Rule = Rule {
    name: "least count",
    unit: Unit::Second,
    limits: triangulation::LEAST_COUNT,
};

const TRIANGLE_CLOSURE: Rule = Rule {
    name: "closure",
    unit: Unit::Second,
    limits: triangulation::CLOSURE,
};

const SUM_OF_CLOSURES: Rule = Rule {
    name: "sum of closures",
    unit: Unit::Second,
    limits: triangulation::AVERAGE_CLOSURE,
};

// What a class asks under a rule.
#[derive(Clone, Copy)]
enum Asked {
    AtLeast(Figure),
    AtMost(Figure),
    // over a length in metres
    AtMostOver(Figure, u32),
    // over so many triangles, and for each of them
    AtMostEach(Figure, u8, Figure),
    LessThan(Figure),
    OutAndBack,
}

// A rule of a survey's standard at a class. Rules are numbered from 0; past the last there is none to miss.
#[derive(Clone, Copy)]
pub(crate) struct RuleAt {
    pub(crate) survey: Survey,
    pub(crate) rule: u8,
    pub(crate) class: Class,
}

// A rule that is missed: what was found, and what the class asks.
#[derive(Clone, Copy)]
pub(crate) struct Miss {
    name: &'static str,
    found: Figure,
    asked: Asked,
}

// The root that a limit sets over a length, its whole part. It is a figure to be told: the library judges by squares, and has no use
// for the product in public.
fn root(factor: u8, limit: u16, metres: u32) -> u64 {
    let limit = u128::from(limit);
    (u128::from(factor) * (limit * limit) * u128::from(metres)).isqrt() as u64
}

impl Rule {
    fn figure(self, amount: u64) -> Figure {
        Figure {
            amount,
            unit: self.unit,
        }
    }

    fn limit(self, class: Class) -> Figure {
        self.figure(u64::from(limit(self.limits, class)))
    }

    fn missed(self, found: u64, asked: Asked) -> Miss {
        Miss {
            name: self.name,
            found: self.figure(found),
            asked,
        }
    }

    // Each way to ask takes the class and what was found, and the class is no part of that.
    fn at_least(self, class: Class, found: u8) -> Miss {
        self.missed(u64::from(found), Asked::AtLeast(self.limit(class)))
    }

    fn at_most(self, class: Class, found: u64) -> Miss {
        self.missed(found, Asked::AtMost(self.limit(class)))
    }

    // At most the limit times the root of `factor` times the length.
    fn at_most_over(self, class: Class, found: u64, factor: u8, metres: u32) -> Miss {
        let most = root(factor, limit(self.limits, class), metres);
        self.missed(found, Asked::AtMostOver(self.figure(most), metres))
    }

    fn at_most_each(self, class: Class, sum: u64, count: u8) -> Miss {
        let each = u64::from(limit(self.limits, class));
        let most = self.figure(each * u64::from(count));
        self.missed(sum, Asked::AtMostEach(most, count, self.figure(each)))
    }

    // Less than the limit; where it is 0, no length is.
    fn less(self, class: Class, metres: u32) -> Miss {
        let asked = match limit(self.limits, class) {
            0 => Asked::OutAndBack,
            _ => Asked::LessThan(self.limit(class)),
        };
        self.missed(u64::from(metres), asked)
    }
}

impl RuleAt {
    pub(crate) fn leg_miss(self, finding: &LegFinding) -> Option<Miss> {
        let class = self.class;
        let readings = finding.readings;
        let (b, c) = (u64::from(readings.b), u64::from(readings.c));
        let miss = match (self.survey, self.rule) {
            (Survey::Level, 0) => METHOD.at_least(class, readings.a),
            (Survey::Level, 1) => LONGEST_SIGHT.at_most(class, b),
            (Survey::Level, 2) => SIGHT_DIFFERENCE.at_most(class, c),
            (Survey::Level, 3) => OWN_MISCLOSURE.at_most_over(
                class,
                finding.misclosure,
                level::MISCLOSURE_FACTOR,
                finding.length.metres,
            ),
            (Survey::Triangulation, 0) => POSITIONS.at_least(class, readings.a),
            (Survey::Triangulation, 1) => DEVIATION.at_most(class, b),
            (Survey::Triangulation, 2) => LEAST_COUNT.at_most(class, c),
            _ => return None,
        };
        Some(miss)
    }

    pub(crate) fn circuit_miss(self, finding: &CircuitFinding) -> Option<Miss> {
        let class = self.class;
        let metres = finding.length.metres;
        let miss = match (self.survey, self.rule) {
            (Survey::Level, 0) => CIRCUIT_CLOSURE.at_most_over(
                class,
                finding.closure,
                level::CLOSURE_FACTOR,
                metres,
            ),
            (Survey::Level, 1) => SUMMED_MISCLOSURE.at_most_over(
                class,
                finding.misclosure,
                level::MISCLOSURE_FACTOR,
                metres,
            ),
            (Survey::Level, 2) => RUNNING.less(class, metres),
            (Survey::Triangulation, 0) => TRIANGLE_CLOSURE.at_most(class, finding.closure),
            _ => return None,
        };
        Some(miss)
    }

    pub(crate) fn whole_miss(self, finding: &WholeFinding) -> Option<Miss> {
        let WholeFinding { circuits, closures } = *finding;
        match (self.survey, self.rule) {
            (Survey::Triangulation, 0) => {
                Some(SUM_OF_CLOSURES.at_most_each(self.class, closures, circuits))
            }
            _ => None,
        }
    }
}

impl fmt::Display for Asked {
    fn fmt<W: fmt::Write>(&self, f: &mut fmt::Formatter<W>) -> fmt::Result {
        match *self {
            Asked::AtLeast(least) => write!(f, "at least {least} wanted"),
            Asked::AtMost(most) => write!(f, "at most {most} allowed"),
            Asked::AtMostOver(most, metres) => write!(f, "at most {most} allowed over {metres} m"),
            Asked::AtMostEach(most, count, each) => {
                let triangles = if count == 1 { "triangle" } else { "triangles" };
                write!(
                    f,
                    "at most {most} allowed over {count} {triangles}, {each} each"
                )
            }
            Asked::LessThan(length) => write!(f, "less than {length} allowed"),
            Asked::OutAndBack => write!(f, "every leg out and back wanted"),
        }
    }
}

impl fmt::Display for Miss {
    fn fmt<W: fmt::Write>(&self, f: &mut fmt::Formatter<W>) -> fmt::Result {
        let Miss { name, found, asked } = *self;
        write!(f, "{name} {found}, {asked}")
    }
}
