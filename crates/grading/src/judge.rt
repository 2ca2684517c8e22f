// A book graded.
ghost use Rattle.std.specs.Prelude.{◌≡◌, ◌&&◌, [], ◌∷◌, IfOk};
ghost use Rattle.records.specs.Refusals.{first, unless};
ghost use Rattle.standards.specs.declared.class.Class.{Class};
ghost use Rattle.standards.specs.ClassSets.{holds};
ghost use Rattle.standards.specs.Gathering.{all_meet};
ghost use Rattle.plainbook.specs.Refusals.{grade_refusals};
ghost use Rattle.plainbook.specs.Steps.{step, grading};
ghost use Rattle.survey.specs.Books.{plain_book, surveyed, Answers};
ghost use Rattle.grading.specs.Grades.{is_graded, GradeEarned};

use crate::collect::{circuit_findings, leg_findings};
use crate::findings::whole_finding;
use crate::grade::Grade;
use crate::loose::loose_leg;
use quantities::quantity::Quantity;
use records::refusal::{Fault, Reason, Refusal};
use standards::class_set::ClassSet;
use standards::finding::{CircuitFinding, LegFinding, WholeFinding};
use standards::gathering::gather;
use standards::standard::Standard;
use std::alloc::Global;
use survey::book::Book;

// The classes that every rule meets on every finding.
fn met<S: Standard>(
    standard: &S,
    legs: &[LegFinding],
    circuits: &[CircuitFinding],
    whole: WholeFinding,
) -> ClassSet
    ensures { (k : Class) → holds result k ≡ (all_meet (S.Standard.meaning standard.now).legs legs.now k && (all_meet (S.Standard.meaning standard.now).circuits circuits.now k && all_meet (S.Standard.meaning standard.now).whole (whole ∷ []) k)) }
{
    let of_circuits = gather(standard, circuits);
    let of_whole = gather(standard, &[whole]);
    gather(standard, legs).both(of_circuits.both(of_whole))
}

// Refuses a book that has no leg, or a leg that no circuit uses.
pub fn check_grade<Q: Quantity, S: Standard>(book: &Book<Q, S>) -> Result<(), Refusal>
    ensures { result ≡ unless (first (grade_refusals (Q.Quantity.meaning book.now.quantity) (S.Standard.meaning book.now.standard) (surveyed book.now))) tt }
{
    if book.legs.is_empty() {
        return Err(Reason::NoLeg.at(0));
    }
    Reason::Loose.refuse(loose_leg(book).map(|leg| u32::from(leg)))
}

pub fn grade<Q: Quantity, S: Standard>(heap: Global, book: &Book<Q, S>) -> Result<Grade, Fault>
    ensures answer { Answers is_graded (step Q.Quantity.meaning S.Standard.meaning grading (plain_book book.now)) (plain_book book.now) (plain_book book.now) result }
    ensures earned { IfOk result (GradeEarned (Q.Quantity.meaning book.now.quantity) (S.Standard.meaning book.now.standard) (surveyed book.now)) }
{
    check_grade(book)?;
    let legs = leg_findings(heap, book)?;
    let circuits = circuit_findings(heap, book)?;
    let whole = whole_finding(book);
    Ok(Grade::of(met(&book.standard, &legs, &circuits, whole)))
}
