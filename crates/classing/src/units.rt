// Measures and figures in their units.
use std::fmt;

// A whole number, and the rest behind its point in so many places.
#[derive(Clone, Copy)]
struct Decimal {
    whole: u128,
    rest: u128,
    places: usize,
}

// Two makers and no unit as a parameter, which would have to be shown not to be 0.
fn hundredths(amount: u128) -> Decimal {
    Decimal {
        whole: amount / 100,
        rest: amount % 100,
        places: 2,
    }
}

fn thousandths(amount: u128) -> Decimal {
    Decimal {
        whole: amount / 1_000,
        rest: amount % 1_000,
        places: 3,
    }
}

impl fmt::Display for Decimal {
    fn fmt<W: fmt::Write>(&self, f: &mut fmt::Formatter<W>) -> fmt::Result {
        let Decimal {
            whole,
            rest,
            places,
        } = *self;
        write!(f, "{whole}.{rest:0places$}")
    }
}

// An angle in 0.01 seconds of arc, as degrees, minutes and seconds.
#[derive(Clone, Copy)]
struct Arc(u128);

impl fmt::Display for Arc {
    fn fmt<W: fmt::Write>(&self, f: &mut fmt::Formatter<W>) -> fmt::Result {
        write!(
            f,
            "{} deg {:02} min {:02}.{:02} sec",
            self.0 / 360_000,
            self.0 / 6_000 % 60,
            self.0 / 100 % 60,
            self.0 % 100
        )
    }
}

// What a survey measures.
#[derive(Clone, Copy)]
pub(crate) enum Measure {
    // a height difference in 0.01 mm
    Height(i128),
    // an angle in 0.01 seconds of arc
    Angle(i128),
}

impl fmt::Display for Measure {
    fn fmt<W: fmt::Write>(&self, f: &mut fmt::Formatter<W>) -> fmt::Result {
        match *self {
            Measure::Height(amount) => {
                let sign = match amount.signum() {
                    -1 => "-",
                    0 => "",
                    _ => "+",
                };
                write!(f, "{sign}{} mm", hundredths(amount.unsigned_abs()))
            }
            Measure::Angle(amount) => {
                let sign = if amount < 0 { "-" } else { "" };
                write!(f, "{sign}{}", Arc(amount.unsigned_abs()))
            }
        }
    }
}

// What the number of a rule counts.
#[derive(Clone, Copy)]
pub(crate) enum Unit {
    One,
    // the way of levelling
    Method,
    Metre,
    Decimetre,
    // in hundredths
    Millimetre,
    // in hundredths, of a sum of doubled heights: told halved
    DoubledMillimetre,
    // in hundredths
    Second,
}

#[derive(Clone, Copy)]
pub(crate) struct Figure {
    pub(crate) amount: u64,
    pub(crate) unit: Unit,
}

fn method_name(method: u64) -> &'static str {
    match method {
        1 => "centre wire",
        2 => "three-wire",
        3 => "micrometer",
        _ => "unknown",
    }
}

impl fmt::Display for Figure {
    fn fmt<W: fmt::Write>(&self, f: &mut fmt::Formatter<W>) -> fmt::Result {
        let amount = self.amount;
        let decimal = hundredths(u128::from(amount));
        match self.unit {
            Unit::One => write!(f, "{amount}"),
            Unit::Method => write!(f, "{amount} ({})", method_name(amount)),
            Unit::Metre => write!(f, "{amount} m"),
            Unit::Decimetre => write!(f, "{amount} dm"),
            Unit::Millimetre => write!(f, "{decimal} mm"),
            // half a hundredth is five thousandths
            Unit::DoubledMillimetre => write!(f, "{} mm", thousandths(u128::from(amount) * 5)),
            Unit::Second => write!(f, "{decimal} seconds"),
        }
    }
}
