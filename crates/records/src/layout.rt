// Layouts: which kind of word stands at each index of a record.
ghost use Rattle.std.specs.Prelude.{◌≡◌, ◌≤◌, length, IfSome};
ghost use Rattle.records.specs.Layouts.{misplaced, Broken};
ghost use Rattle.records.specs.Lowest.{Lowest};
ghost use Rattle.records.specs.Refusals.{refusal, unless};
ghost use Rattle.records.specs.declared.refusal.Reason.TheVariants.{Layout};

use crate::refusal::{Reason, Refusal};
use crate::word::{Kind, Slot};

pub(crate) const LEG: [Slot; 5] = [
    Slot {
        kind: Kind::Leg,
        required: true,
    },
    Slot {
        kind: Kind::Value,
        required: true,
    },
    Slot {
        kind: Kind::Length,
        required: true,
    },
    Slot {
        kind: Kind::Readings,
        required: true,
    },
    Slot {
        kind: Kind::Back,
        required: false,
    },
];

const MORE: Slot = Slot {
    kind: Kind::Use,
    required: false,
};

pub(crate) const CIRCUIT: [Slot; 18] = [
    Slot {
        kind: Kind::Circuit,
        required: true,
    },
    Slot {
        kind: Kind::Due,
        required: true,
    },
    Slot {
        kind: Kind::Use,
        required: true,
    },
    MORE,
    MORE,
    MORE,
    MORE,
    MORE,
    MORE,
    MORE,
    MORE,
    MORE,
    MORE,
    MORE,
    MORE,
    MORE,
    MORE,
    MORE,
];

// The least index at which a word is absent, surplus or of another kind than the layout's. A loop with its index, since a slot is held
// against a word that may not be there.
pub fn misplaced(slots: &[Slot], words: &[u32]) -> Option<usize>
    ensures value { result ≡ misplaced 0 slots.now words.now }
    ensures lowest { Lowest (Broken slots.now words.now) result }
    ensures bound { IfSome result (λ i. i ≤ length slots.now) }
{
    for (i, slot) in slots.iter().enumerate() {
        let broken = match words.get(i) {
            None => slot.required,
            Some(word) => !slot.kind.is_of(*word),
        };
        if broken {
            return Some(i);
        }
    }
    if words.len() > slots.len() {
        Some(slots.len())
    } else {
        None
    }
}

// Refuses words that break the layout.
pub(crate) fn check(slots: &[Slot], words: &[u32]) -> Result<(), Refusal>
    requires { length slots.now ≤ 18 }
    ensures { result ≡ unless (refusal Layout (misplaced 0 slots.now words.now)) tt }
{
    Reason::Layout.refuse(misplaced(slots, words).map(|i| i as u32))
}
