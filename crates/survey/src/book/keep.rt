// A book opened, and legs and circuits struck from it.
ghost use Rattle.std.specs.Prelude.{◌≡◌, not};
ghost use Rattle.records.specs.declared.refusal.Reason.TheVariants.{Range};
ghost use Rattle.records.specs.Ranges.{between};
ghost use Rattle.records.specs.Refusals.{unless, seen};
ghost use Rattle.plainbook.specs.Refusals.{refused_if};
ghost use Rattle.plainbook.specs.Steps.{opened, step, striking_leg, striking_circuit};
ghost use Rattle.survey.specs.Books.{plain_book, AnswersAlways, is_done};

use super::Book;
use quantities::quantity::Quantity;
use records::number::{CircuitNumber, LegNumber, Number};
use records::refusal::{Reason, Refusal};
use standards::standard::Standard;
use std::alloc::Global;
use std::collections::BTreeMap;

// A number in the range of its kind. A match, since an `and_then` to a type with a constant gets no proof.
fn numbered<const GREATEST: u16>(number: u32) -> Result<Number<GREATEST>, Refusal>
    ensures { seen (λ n. n.value) result ≡ unless (refused_if Range 0 (not (between 1 GREATEST number))) number }
{
    match u16::try_from(number) {
        Ok(number) => Number::new(number).ok_or(Reason::Range.at(0)),
        Err(_) => Err(Reason::Range.at(0)),
    }
}

impl<Q: Quantity + Drop, S: Standard + Drop> Book<Q, S> {
    pub fn open(heap: Global, quantity: Q, standard: S) -> Book<Q, S>
        ensures { plain_book result ≡ opened quantity standard }
    {
        Book {
            quantity,
            standard,
            legs: BTreeMap::new(heap),
            circuits: BTreeMap::new(heap),
        }
    }

    pub fn strike_leg(&mut self, number: u32) -> Result<(), Refusal>
        ensures { AnswersAlways is_done (step Q.Quantity.meaning S.Standard.meaning (striking_leg number) (plain_book self.old)) (plain_book self.new) result }
    {
        let LegNumber { value: number } = numbered(number)?;
        if !self.legs.contains_key(&number) {
            return Err(Reason::Absent.at(0));
        }
        let user = self.user_of(number);
        Reason::InUse.refuse(user.map(|circuit| u32::from(circuit)))?;
        let _ = self.legs.remove(&number);
        Ok(())
    }

    pub fn strike_circuit(&mut self, number: u32) -> Result<(), Refusal>
        ensures { AnswersAlways is_done (step Q.Quantity.meaning S.Standard.meaning (striking_circuit number) (plain_book self.old)) (plain_book self.new) result }
    {
        let CircuitNumber { value: number } = numbered(number)?;
        if !self.circuits.contains_key(&number) {
            return Err(Reason::Absent.at(0));
        }
        let _ = self.circuits.remove(&number);
        Ok(())
    }
}
