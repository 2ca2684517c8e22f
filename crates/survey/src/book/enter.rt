// Legs entered into a book.
ghost use Rattle.std.specs.Prelude.{◌≡◌};
ghost use Rattle.records.specs.Legs.{leg_record, leg_read};
ghost use Rattle.records.specs.Refusals.{first, unless, seen};
ghost use Rattle.plainbook.specs.Refusals.{enter_refusals};
ghost use Rattle.plainbook.specs.Steps.{step, entering};
ghost use Rattle.survey.specs.Books.{plain_book, surveyed, Answers, is_done};

use super::Book;
use quantities::acceptance as measures;
use quantities::quantity::Quantity;
use records::leg::Leg;
use records::refusal::{Fault, Reason, Refusal};
use standards::acceptance as observations;
use standards::standard::Standard;

impl<Q: Quantity + Drop, S: Standard + Drop> Book<Q, S> {
    // The leg that the words say, where nothing refuses it.
    fn new_leg(&self, words: &[u32]) -> Result<Leg, Refusal>
        ensures { seen leg_record result ≡ unless (first (enter_refusals (Q.Quantity.meaning self.now.quantity) (S.Standard.meaning self.now.standard) (surveyed self.now) words.now)) (leg_read words.now) }
    {
        let leg = Leg::decode(words)?;
        measures::accept_leg(&self.quantity, &leg)?;
        observations::accept_leg(&self.standard, &leg)?;
        if self.legs.contains_key(&leg.number.value) {
            return Err(Reason::Taken.at(0));
        }
        Ok(leg)
    }

    pub fn enter(&mut self, words: &[u32]) -> Result<(), Fault>
        ensures { Answers is_done (step Q.Quantity.meaning S.Standard.meaning (entering words.now) (plain_book self.old)) (plain_book self.old) (plain_book self.new) result }
    {
        let leg = self.new_leg(words)?;
        self.legs.insert(leg.number.value, leg)?;
        Ok(())
    }
}
