// The classes that a leg meets by itself, and the rules that keep it from a better one.
use crate::classes::{CLASSES, Graded};
use crate::kinds::Kind;
use crate::rules::{Miss, RuleAt};
use crate::show::accepted_leg;
use grading::grade::Grade;
use records::refusal::Fault;
use standards::acceptance::accept_leg;
use standards::class::Class;
use standards::finding::LegFinding;
use standards::gathering::gather;
use standards::standard::Standard;
use std::alloc::Global;
use std::fmt;

#[derive(Drop)]
pub(crate) struct Judgment {
    graded: Graded,
    // at the classes better than the best that is met
    misses: Vec<ClassMiss>,
}

#[derive(Clone, Copy)]
struct ClassMiss {
    class: Class,
    miss: Miss,
}

pub(crate) fn judge<K: Kind>(heap: Global, words: &[u32]) -> Result<Judgment, Fault> {
    let leg = accepted_leg::<K>(words)?;
    let standard = K::STANDARD;
    accept_leg(&standard, &leg)?;
    let finding = LegFinding::of(&K::QUANTITY, &leg);
    let met = gather(&standard, &[finding]);
    let survey = K::SURVEY;
    let better = CLASSES
        .into_iter()
        .take_while(|class| !met.contains(*class));
    let mut misses = Vec::new(heap);
    for class in better {
        let meets = |rule| standard.leg_classes(rule, &finding).contains(class);
        for rule in (0..standard.leg_rules()).filter(|rule| !meets(*rule)) {
            let asked = RuleAt {
                survey,
                rule,
                class,
            };
            if let Some(miss) = asked.leg_miss(&finding) {
                misses.push(ClassMiss { class, miss })?;
            }
        }
    }
    let grade = Grade::of(met);
    let graded = Graded { survey, grade };
    Ok(Judgment { graded, misses })
}

impl fmt::Display for Judgment {
    fn fmt<W: fmt::Write>(&self, f: &mut fmt::Formatter<W>) -> fmt::Result {
        write!(f, "{}", self.graded)?;
        for ClassMiss { class, miss } in self.misses.iter() {
            write!(f, "; class {} missed: {miss}", class.number())?;
        }
        Ok(())
    }
}
