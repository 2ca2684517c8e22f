// What stands in a book at a number: a leg or a circuit, and what it shows.
ghost use Rattle.std.specs.Prelude.{◌≡◌, ℕ};
ghost use Rattle.records.specs.Circuits.{circuit_record};
ghost use Rattle.records.specs.Legs.{leg_record};
ghost use Rattle.quantities.specs.Terms.{Terms};
ghost use Rattle.standards.specs.Observed.{leg_finding};
ghost use Rattle.plainbook.specs.Findings.{circuit_finding};
ghost use Rattle.plainbook.specs.Surveys.{Survey};
ghost use Rattle.survey.specs.Books.{surveyed};
ghost use Rattle.listing.specs.declared.item.Place.{Place};
ghost use Rattle.listing.specs.declared.item.Place.TheVariants as places;

use crate::item::Place;
use grading::findings::finding_of;
use quantities::quantity::Quantity;
use records::circuit::Circuit;
use records::leg::Leg;
use standards::finding::{CircuitFinding, LegFinding};
use standards::gathering::Finding;
use survey::book::Book;

pub(crate) trait Standing: Sized {
    type Shown: Finding + Drop;

    ghost place: { Place };

    ghost number: { Self → ℕ };

    ghost shown: { {Element : Type 0} → Terms Element → Survey → Self → Self.Shown };

    fn place() -> Place
        ensures { result ≡ place };

    fn number(&self) -> u16
        ensures { result ≡ number self.now };

    fn finding<Q: Quantity, S>(&self, book: &Book<Q, S>) -> Self::Shown
        ensures { result ≡ shown (Q.Quantity.meaning book.now.quantity) (surveyed book.now) self.now };
}

impl Standing for Leg {
    type Shown = LegFinding;

    ghost place = { places.Leg };

    ghost number = { λ l. l.number.value };

    ghost shown = { λ q p l. leg_finding q (leg_record l) };

    fn place() -> Place {
        Place::Leg
    }

    fn number(&self) -> u16 {
        self.number.value
    }

    fn finding<Q: Quantity, S>(&self, book: &Book<Q, S>) -> LegFinding {
        LegFinding::of(&book.quantity, self)
    }
}

impl Standing for Circuit {
    type Shown = CircuitFinding;

    ghost place = { places.Circuit };

    ghost number = { λ c. c.number.value };

    ghost shown = { λ q p c. circuit_finding q p (circuit_record c) };

    fn place() -> Place {
        Place::Circuit
    }

    fn number(&self) -> u16 {
        self.number.value
    }

    fn finding<Q: Quantity, S>(&self, book: &Book<Q, S>) -> CircuitFinding {
        finding_of(book, self)
    }
}
