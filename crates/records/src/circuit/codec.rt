// A circuit read from its words, and written as words.
ghost use Rattle.std.specs.Prelude.{◌≡◌, map, drop, IfOk, if◌then◌else◌, Some, None};
ghost use Rattle.std.specs.Option.{option_map};
ghost use Rattle.records.specs.Circuits.{head_ranged, head_record, head_decoded, use_read, circuit_record, circuit_words, circuit_decoded, CircuitsReadBack, LeastUnranged};
ghost use Rattle.records.specs.Refusals.{Gives, seen};
ghost use Rattle.records.specs.Words.{bits, payload};

use super::named::check_uses;
use super::{Circuit, Head, Uses, View};
use crate::layout;
use crate::number::CircuitNumber;
use crate::refusal::{Fault, Reason, Refusal};
use crate::word::{Kind, Payload};
use std::alloc::{AllocError, Global};

// The circuit number of a head word, where it is in range and the bits below it are zero.
fn head_number(word: u32) -> Option<CircuitNumber>
    ensures { option_map (λ n. n.value) result ≡ (if head_ranged word then Some (bits 20 8 (payload word)) else None) }
{
    let payload = Payload::of_word(word);
    if payload.bits % (1 << 20) != 0 {
        return None;
    }
    CircuitNumber::new(payload.field::<20, 8>())
}

impl Circuit {
    // What a circuit's words say, where they are all laid out and in range. Nothing is allocated.
    pub fn view(words: &[u32]) -> Result<View<'_>, Refusal>
        ensures head { seen (λ v. head_record v.head) result ≡ head_decoded words.now }
        ensures uses { IfOk result (λ v. v.uses.words.now ≡ drop 2 words.now) }
    {
        layout::check(&layout::CIRCUIT, words)?;
        let [head, due, uses @ ..] = words else {
            unreachable()
        };
        let number = head_number(*head).ok_or(Reason::Range.at(0))?;
        check_uses(uses)?;
        let due = Payload::of_word(*due);
        Ok(View {
            head: Head { number, due },
            uses: Uses { words: uses },
        })
    }

    // The head of a circuit whose words are all laid out and in range; it is kept without them.
    pub fn head(words: &[u32]) -> Result<Head, Refusal>
        ensures { seen head_record result ≡ head_decoded words.now }
    {
        Ok(Circuit::view(words)?.head)
    }

    // The circuit that a view says.
    pub fn of(heap: Global, view: &View<'_>) -> Result<Circuit, AllocError>
        ensures { IfOk result (λ c. circuit_record c ≡ record { number = view.now.head.number.value; due = view.now.head.due.bits; legs = map use_read view.now.uses.words.now }) }
    {
        let Head { number, due } = view.head;
        let legs = view.uses.legs(heap)?;
        Ok(Circuit { number, due, legs })
    }

    pub fn decode(heap: Global, words: &[u32]) -> Result<Circuit, Fault>
        ensures gives { Gives circuit_record (circuit_decoded words.now) result }
        ensures least { LeastUnranged }
    {
        let view = Circuit::view(words)?;
        Ok(Circuit::of(heap, &view)?)
    }

    pub fn encode(&self, heap: Global) -> Result<Vec<u32>, AllocError>
        ensures words { IfOk result (λ v. v.items ≡ circuit_words (circuit_record self.now)) }
        ensures law { CircuitsReadBack }
    {
        let head = Payload::packed(self.number.value as u8, 0, 0);
        let first = [head.under(Kind::Circuit), self.due.under(Kind::Due)];
        let uses = self.legs.iter().map(|leg_use| leg_use.word());
        first.into_iter().chain(uses).collect(heap)
    }
}
