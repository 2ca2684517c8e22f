// The two kinds of survey, and what they call nodes and classes.
use crate::names::NotAName;
use standards::class::Class;
use std::str::FromStr;

#[derive(Clone, Copy)]
pub(crate) enum Survey {
    Level,
    Triangulation,
}

impl FromStr for Survey {
    type Err = NotAName;

    fn from_str(name: &str) -> Result<Survey, NotAName> {
        match name {
            "level" => Ok(Survey::Level),
            "triangulation" => Ok(Survey::Triangulation),
            _ => Err(NotAName),
        }
    }
}

impl Survey {
    pub(crate) fn node(self) -> &'static str {
        match self {
            Survey::Level => "bench mark",
            Survey::Triangulation => "line",
        }
    }

    // a text for a pair, which no Display has
    pub(crate) fn class_name(self, class: Class) -> &'static str {
        match (self, class) {
            (Survey::Level, Class::First) => "first-order, class I",
            (Survey::Level, Class::Second) => "first-order, class II",
            (Survey::Level, Class::Third) => "second-order, class I",
            (Survey::Level, Class::Fourth) => "second-order, class II",
            (Survey::Level, Class::Fifth) => "third-order",
            (Survey::Triangulation, Class::First) => "first-order",
            (Survey::Triangulation, Class::Second) => "second-order, class I",
            (Survey::Triangulation, Class::Third) => "second-order, class II",
            (Survey::Triangulation, Class::Fourth) => "third-order, class I",
            (Survey::Triangulation, Class::Fifth) => "third-order, class II",
        }
    }
}
