// The grade of a survey.
ghost use Rattle.std.specs.Prelude.{◌≡◌};
ghost use Rattle.standards.specs.Classes.{members, least};
ghost use Rattle.standards.specs.ClassSets.{holds};
ghost use Rattle.plainbook.specs.Grades.{class_bits};
ghost use Rattle.grading.specs.Grades.{grade_record};

use standards::class::Class;
use standards::class_set::ClassSet;

#[derive(Clone, Copy)]
pub struct Grade {
    // the classes that every rule meets on every finding
    pub met: ClassSet,
    pub count: u32,
    pub best: Option<Class>,
}

impl Grade {
    pub fn of(met: ClassSet) -> Grade
        ensures set { result.met ≡ met }
        ensures value { grade_record result ≡ record { set = class_bits (holds met); count = members (holds met); best = least (holds met) } }
    {
        Grade {
            met,
            count: met.count(),
            best: met.best(),
        }
    }
}
