// What a book shows of all its legs and of all its circuits, in the order of their numbers. Each is one chain of the library's, so
// a generic function over both would hold no more than that chain.
ghost use Rattle.std.specs.Prelude.{◌≡◌, MatchResult};
ghost use Rattle.records.specs.declared.refusal.Fault.TheVariants.{Memory};
ghost use Rattle.plainbook.specs.Findings.{leg_findings, circuit_findings};
ghost use Rattle.survey.specs.Books.{surveyed};

use crate::findings::finding_of;
use quantities::quantity::Quantity;
use records::circuit::Circuit;
use records::leg::Leg;
use records::refusal::Fault;
use standards::finding::{CircuitFinding, LegFinding};
use std::alloc::Global;
use survey::book::Book;

pub fn leg_findings<Q: Quantity, S>(
    heap: Global,
    book: &Book<Q, S>,
) -> Result<Vec<LegFinding>, Fault>
    ensures { MatchResult result (λ v. v.items ≡ leg_findings (Q.Quantity.meaning book.now.quantity) (surveyed book.now)) (λ e. e ≡ Memory) }
{
    let show = |leg: &Leg| LegFinding::of(&book.quantity, leg);
    let findings = book.legs.values().map(show).collect(heap)?;
    Ok(findings)
}

pub fn circuit_findings<Q: Quantity, S>(
    heap: Global,
    book: &Book<Q, S>,
) -> Result<Vec<CircuitFinding>, Fault>
    ensures { MatchResult result (λ v. v.items ≡ circuit_findings (Q.Quantity.meaning book.now.quantity) (surveyed book.now)) (λ e. e ≡ Memory) }
{
    let show = |circuit: &Circuit| finding_of(book, circuit);
    let findings = book.circuits.values().map(show).collect(heap)?;
    Ok(findings)
}
