// A leg read from its words, and written as words.
ghost use Rattle.std.specs.Prelude.{◌≡◌, IfOk};
ghost use Rattle.records.specs.Legs.{leg_record, leg_words, leg_decoded, running, LegsReadBack};
ghost use Rattle.records.specs.Refusals.{seen};

use super::{Leg, Length, Readings, Running};
use crate::layout;
use crate::number::{LegNumber, Node};
use crate::refusal::{Reason, Refusal};
use crate::word::{Kind, Payload};
use std::alloc::{AllocError, Global};

impl Leg {
    pub fn decode(words: &[u32]) -> Result<Leg, Refusal>
        ensures { seen leg_record result ≡ leg_decoded words.now }
    {
        layout::check(&layout::LEG, words)?;
        let [head, value, length, readings, rest @ ..] = words else {
            unreachable()
        };
        let back = match rest {
            [] => None,
            [back] => Some(Payload::of_word(*back)),
            _ => unreachable(),
        };
        let head = Payload::of_word(*head);
        let out_of_range = Reason::Range.at(0);
        let number = LegNumber::new(head.field::<20, 8>()).ok_or(out_of_range)?;
        let start = Node::new(head.field::<10, 10>()).ok_or(out_of_range)?;
        let end = Node::new(head.field::<0, 10>()).ok_or(out_of_range)?;
        if start == end {
            return Err(out_of_range);
        }
        let metres = Payload::of_word(*length).bits;
        let readings = Payload::of_word(*readings);
        let a = readings.field::<20, 8>() as u8;
        let (b, c) = (readings.field::<10, 10>(), readings.field::<0, 10>());
        Ok(Leg {
            number,
            start,
            end,
            value: Payload::of_word(*value),
            length: Length { metres },
            readings: Readings { a, b, c },
            back,
        })
    }

    pub fn encode(&self, heap: Global) -> Result<Vec<u32>, AllocError>
        ensures words { IfOk result (λ v. v.items ≡ leg_words (leg_record self.now)) }
        ensures law { LegsReadBack }
    {
        let Readings { a, b, c } = self.readings;
        let length = Payload {
            bits: self.length.metres,
        };
        let head = Payload::packed(self.number.value as u8, self.start.value, self.end.value);
        let head = head.under(Kind::Leg);
        let value = self.value.under(Kind::Value);
        let length = length.under(Kind::Length);
        let readings = Payload::packed(a, b, c).under(Kind::Readings);
        match self.back {
            None => [head, value, length, readings].to_vec(heap),
            Some(back) => [head, value, length, readings, back.under(Kind::Back)].to_vec(heap),
        }
    }

    // A leg with a back value was run twice.
    pub fn running(&self) -> Running
        ensures { result ≡ running (leg_record self.now).back }
    {
        match self.back {
            None => Running::Single,
            Some(_) => Running::Double,
        }
    }
}
