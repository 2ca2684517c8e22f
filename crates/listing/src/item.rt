// The misses of one item, listed.
ghost use Rattle.std.specs.Prelude.{◌≡◌, suc, ◌+◌, ◌^◌, ◌<◌, length, Some};
ghost use Rattle.plainbook.specs.Misses.{miss_word, item_misses};
ghost use Rattle.listing.specs.Writing.{place_number, put};

use standards::class::Class;
use standards::gathering::Finding;
use standards::standard::Standard;

// Where an item stands.
#[derive(Clone, Copy)]
pub(crate) enum Place {
    Leg = 1,
    Circuit = 2,
    Whole = 3,
}

// An item, and the class at which its misses are asked for.
#[derive(Clone, Copy)]
pub(crate) struct Asked {
    pub(crate) class: Class,
    pub(crate) place: Place,
    // the item's number, 0 for the whole
    pub(crate) item: u16,
}

impl Asked {
    // The word of a miss of the rule, which is counted from 0; the word counts it from 1.
    fn word(self, rule: u8) -> u32
        requires { rule < 255 }
        ensures { result ≡ miss_word self.class (place_number self.place) (suc rule) self.item }
    {
        (12 << 28)
            + (u32::from(self.class.number()) << 24)
            + ((self.place as u32) << 20)
            + ((u32::from(rule) + 1) << 12)
            + u32::from(self.item)
    }
}

// Lists the rules that the finding misses at the class: a word for each, from an index on, as far as there are words. Says where the
// list ends, which may be beyond them; so the end is counted beside the words, and a struct of the two would hold no more than both.
pub(crate) fn list_misses<S: Standard, F: Finding>(
    standard: &S,
    asked: Asked,
    finding: &F,
    words: &mut [u32],
    start: usize,
) -> usize
    requires { start < 2 ^ 32 }
    ensures end { result ≡ start + length (item_misses (F.Finding.table (S.Standard.meaning standard.now)) asked.class (place_number asked.place) asked.item (Some finding.now)) }
    ensures after { words.new ≡ put start (item_misses (F.Finding.table (S.Standard.meaning standard.now)) asked.class (place_number asked.place) asked.item (Some finding.now)) words.old }
{
    let mut at = start;
    for rule in 0..F::rules(standard) {
        if !finding.classes(standard, rule).contains(asked.class) {
            if at < words.len() {
                words[at] = asked.word(rule);
            }
            at += 1;
        }
    }
    at
}
