// Circuits joined to a book.
ghost use Rattle.std.specs.Prelude.{◌≡◌};
ghost use Rattle.records.specs.Refusals.{first, unless};
ghost use Rattle.plainbook.specs.Refusals.{join_refusals};
ghost use Rattle.plainbook.specs.Steps.{step, joining};
ghost use Rattle.survey.specs.Books.{plain_book, surveyed, Answers, is_done};

use super::Book;
use quantities::acceptance::accept_due;
use quantities::quantity::Quantity;
use records::circuit::Circuit;
use records::refusal::{Fault, Reason, Refusal};
use standards::acceptance::accept_form;
use standards::standard::Standard;
use std::alloc::Global;

impl<Q: Quantity + Drop, S: Standard + Drop> Book<Q, S> {
    // Refuses words that make no circuit of this book. Nothing is allocated.
    fn check_circuit(&self, words: &[u32]) -> Result<(), Refusal>
        ensures { result ≡ unless (first (join_refusals (Q.Quantity.meaning self.now.quantity) (S.Standard.meaning self.now.standard) (surveyed self.now) words.now)) tt }
    {
        let view = Circuit::view(words)?;
        if self.circuits.contains_key(&view.head.number.value) {
            return Err(Reason::Taken.at(0));
        }
        accept_due(&self.quantity, view.head.due)?;
        let form = self.chain(&view.uses)?;
        accept_form(&self.standard, form)
    }

    pub fn join(&mut self, heap: Global, words: &[u32]) -> Result<(), Fault>
        ensures { Answers is_done (step Q.Quantity.meaning S.Standard.meaning (joining words.now) (plain_book self.old)) (plain_book self.old) (plain_book self.new) result }
    {
        self.check_circuit(words)?;
        let circuit = Circuit::decode(heap, words)?;
        self.circuits.insert(circuit.number.value, circuit)?;
        Ok(())
    }
}
