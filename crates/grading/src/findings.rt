// What a book shows of a leg and of a circuit.
ghost use Rattle.std.specs.Prelude.{◌≡◌};
ghost use Rattle.records.specs.Circuits.{circuit_record};
ghost use Rattle.records.specs.Legs.{leg_record};
ghost use Rattle.plainbook.specs.Findings.{contribution, own_misclosure, joined, circuit_finding, the_whole};
ghost use Rattle.plainbook.specs.Promise.{leg_item, circuit_item};
ghost use Rattle.survey.specs.Books.{surveyed};
ghost use Rattle.survey.specs.Runs.{run_record};
ghost use Rattle.grading.specs.Closures.{closure_where};

use quantities::quantity::Quantity;
use records::circuit::{Circuit, Sense};
use records::leg::{Leg, Length, Running};
use records::word::Payload;
use standards::finding::{CircuitFinding, LegFinding, WholeFinding};
use survey::book::Book;
use survey::path::Path;
use survey::run::Run;

// Single if either is single.
fn joined(first: Running, second: Running) -> Running
    ensures { result ≡ joined first second }
{
    match first {
        Running::Single => Running::Single,
        Running::Double => second,
    }
}

// What a leg adds to a circuit: opposite where it is run against.
fn contribution<Q: Quantity>(quantity: &Q, run: &Run<'_>) -> Q::Element
    ensures { result ≡ contribution (Q.Quantity.meaning quantity.now) (run_record run.now) }
{
    let along = quantity.contribution(run.leg.value, run.leg.back);
    match run.sense {
        Sense::Along => along,
        Sense::Against => quantity.opposite(along),
    }
}

// The same whichever way the leg is run.
fn own_misclosure<Q: Quantity>(quantity: &Q, leg: &Leg) -> Q::Element
    ensures { result ≡ own_misclosure (Q.Quantity.meaning quantity.now) (leg_record leg.now) }
{
    quantity.misclosure(leg.value, leg.back)
}

// The size of the contributions' sum less the due sum, 0 where the circuit is open.
fn closure<Q: Quantity>(quantity: &Q, closed: bool, contributions: Q::Element, due: Payload) -> u64
    ensures { result ≡ closure_where (Q.Quantity.meaning quantity.now) closed contributions due.bits }
{
    if !closed {
        return 0;
    }
    let taken = quantity.opposite(quantity.due(due));
    quantity.size(quantity.sum(contributions, taken))
}

// What a circuit shows, over the legs that stand.
pub fn finding_of<Q: Quantity, S>(book: &Book<Q, S>, circuit: &Circuit) -> CircuitFinding
    ensures { result ≡ circuit_finding (Q.Quantity.meaning book.now.quantity) (surveyed book.now) (circuit_record circuit.now) }
{
    let quantity = &book.quantity;
    let mut path = Path::new();
    let mut metres = 0;
    let mut running = Running::Double;
    let mut contributions = quantity.zero();
    let mut misclosures = quantity.zero();
    for used in circuit.legs.iter() {
        let Some(run) = book.run(*used) else {
            continue;
        };
        path = path.follow(&run);
        metres += run.leg.length.metres;
        running = joined(running, run.leg.running());
        contributions = quantity.sum(contributions, contribution(quantity, &run));
        misclosures = quantity.sum(misclosures, own_misclosure(quantity, run.leg));
    }
    let form = path.form();
    CircuitFinding {
        form,
        length: Length { metres },
        running,
        closure: closure(quantity, form.closed, contributions, circuit.due),
        misclosure: quantity.size(misclosures),
    }
}

// How many circuits are closed, and the sum of their closures.
pub fn whole_finding<Q: Quantity, S>(book: &Book<Q, S>) -> WholeFinding
    ensures { result ≡ the_whole (Q.Quantity.meaning book.now.quantity) (surveyed book.now) }
{
    let mut circuits = 0;
    let mut closures: u64 = 0;
    for circuit in book.circuits.values() {
        let finding = finding_of(book, circuit);
        if finding.form.closed {
            circuits += 1;
        }
        closures = closures.saturating_add(finding.closure);
    }
    WholeFinding { circuits, closures }
}

// What the leg with a number shows, if it stands; in the words of legs, as the next in those of circuits.
pub fn leg_finding<Q: Quantity, S>(book: &Book<Q, S>, number: u16) -> Option<LegFinding>
    ensures { result ≡ leg_item (Q.Quantity.meaning book.now.quantity) (surveyed book.now) number }
{
    let leg = book.legs.get(&number)?;
    Some(LegFinding::of(&book.quantity, leg))
}

// What the circuit with a number shows, if it stands.
pub fn circuit_finding<Q: Quantity, S>(book: &Book<Q, S>, number: u16) -> Option<CircuitFinding>
    ensures { result ≡ circuit_item (Q.Quantity.meaning book.now.quantity) (surveyed book.now) number }
{
    let circuit = book.circuits.get(&number)?;
    Some(finding_of(book, circuit))
}
