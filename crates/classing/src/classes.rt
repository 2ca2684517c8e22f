// A grade in plain words.
use crate::surveys::Survey;
use grading::grade::Grade;
use standards::class::Class;
use std::fmt;

pub(crate) const CLASSES: [Class; 5] = [
    Class::First,
    Class::Second,
    Class::Third,
    Class::Fourth,
    Class::Fifth,
];

#[derive(Clone, Copy)]
pub(crate) struct Graded {
    pub(crate) survey: Survey,
    pub(crate) grade: Grade,
}

impl fmt::Display for Graded {
    fn fmt<W: fmt::Write>(&self, f: &mut fmt::Formatter<W>) -> fmt::Result {
        let Grade { met, count, best } = self.grade;
        write!(f, "classes ")?;
        for class in CLASSES {
            if met.contains(class) {
                write!(f, "{}", class.number())?;
            }
        }
        match best {
            Some(best) => write!(
                f,
                " count {count} best {}: {}",
                best.number(),
                self.survey.class_name(best)
            ),
            None => write!(f, "none count {count} best none: no class"),
        }
    }
}
