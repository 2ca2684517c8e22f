// The legs that a circuit's words name.
ghost use Rattle.std.specs.Prelude.{◌≡◌, ◌≤◌, not, position, map, length, IfOk, if◌then◌else◌, Some, None};
ghost use Rattle.std.specs.Option.{option_map};
ghost use Rattle.records.specs.Circuits.{use_record, use_read, use_word};
ghost use Rattle.records.specs.Uses.{use_ranged, use_unranged};
ghost use Rattle.records.specs.Refusals.{refusal, unless, seen};
ghost use Rattle.records.specs.declared.refusal.Reason.TheVariants.{Range};

use super::{LegUse, Sense, Uses};
use crate::number::LegNumber;
use crate::refusal::{Reason, Refusal};
use crate::word::{Kind, Payload};
use std::alloc::{AllocError, Global};

// The index of a circuit's first use.
const FIRST_USE: usize = 2;

impl LegUse {
    // What a word says, where its number is in range and its spare bits are zero; an Option, since the word's place is not known here.
    pub fn read(word: u32) -> Option<LegUse>
        ensures { option_map use_record result ≡ (if use_ranged word then Some (use_read word) else None) }
    {
        let bits = Payload::of_word(word).bits;
        let leg = LegNumber::new((bits % 256) as u16)?;
        if (bits >> 8) % (1 << 19) != 0 {
            return None;
        }
        let sense = if bits >> 27 == 1 {
            Sense::Against
        } else {
            Sense::Along
        };
        Some(LegUse { leg, sense })
    }

    pub(super) fn word(self) -> u32
        ensures { result ≡ use_word (use_record self) }
    {
        let bits = ((self.sense as u32) << 27) + u32::from(self.leg.value);
        Payload { bits }.under(Kind::Use)
    }
}

fn is_ranged(word: u32) -> bool
    ensures { result ≡ use_ranged word }
{
    LegUse::read(word).is_some()
}

fn first_unranged(words: &[u32]) -> Option<usize>
    ensures { result ≡ position (λ w. not (use_ranged w)) words.now }
{
    words.iter().position(|word| !is_ranged(*word))
}

// Refuses the first use that is out of range.
pub(super) fn check_uses(words: &[u32]) -> Result<(), Refusal>
    requires { length words.now ≤ 16 }
    ensures { result ≡ unless (refusal Range (use_unranged 2 words.now)) tt }
{
    Reason::Range.refuse(first_unranged(words).map(|i| (FIRST_USE + i) as u32))
}

impl<'a> Uses<'a> {
    // Each word gives a leg: a `filter_map` would pass over one that did not, unseen.
    pub(super) fn legs(&self, heap: Global) -> Result<Vec<LegUse>, AllocError>
        ensures { IfOk result (λ v. map use_record v.items ≡ map use_read self.now.words.now) }
    {
        let mut uses = Vec::new(heap);
        for word in self.words {
            let Some(leg_use) = LegUse::read(*word) else {
                unreachable()
            };
            uses.push(leg_use)?;
        }
        Ok(uses)
    }
}
