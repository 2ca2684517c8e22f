// The misses that a book lists: their words, and what they say.
use crate::kinds::Kind;
use crate::rules::{Miss, RuleAt};
use grading::findings::{circuit_finding, leg_finding, whole_finding};
use standards::class::Class;
use std::alloc::{AllocError, Global};
use std::fmt;
use survey::book::Book;

// A leg or a circuit, by its number, or the whole.
#[derive(Clone, Copy)]
enum Item {
    Leg(u16),
    Circuit(u16),
    Whole,
}

// What the word of a miss names; the rule is counted from 0.
#[derive(Clone, Copy)]
struct Named {
    class: Class,
    item: Item,
    rule: u8,
}

#[derive(Clone, Copy)]
struct ItemMiss {
    item: Item,
    miss: Miss,
}

#[derive(Clone, Copy)]
struct Entry {
    word: u32,
    // what the word says
    says: Option<ItemMiss>,
}

#[derive(Drop)]
pub(crate) struct Listing {
    entries: Vec<Entry>,
}

impl Named {
    // Here a word's numbers become what they stand for; an Option, since a word that is no miss has nothing more to say.
    fn read(word: u32) -> Option<Named> {
        let class = Class::try_from((word >> 24 & 0xf) as u8).ok()?;
        let rule = ((word >> 12 & 0xff) as u8).checked_sub(1)?;
        let number = (word & 0xfff) as u16;
        let item = match word >> 20 & 0xf {
            1 => Item::Leg(number),
            2 => Item::Circuit(number),
            3 => Item::Whole,
            _ => return None,
        };
        Some(Named { class, item, rule })
    }

    fn miss<K: Kind>(self, book: &Book<K::Quantity, K::Standard>) -> Option<Miss> {
        let Named { class, item, rule } = self;
        let survey = K::SURVEY;
        let asked = RuleAt {
            survey,
            rule,
            class,
        };
        match item {
            Item::Leg(number) => asked.leg_miss(&leg_finding(book, number)?),
            Item::Circuit(number) => asked.circuit_miss(&circuit_finding(book, number)?),
            Item::Whole => asked.whole_miss(&whole_finding(book)),
        }
    }
}

impl ItemMiss {
    fn read<K: Kind>(book: &Book<K::Quantity, K::Standard>, word: u32) -> Option<ItemMiss> {
        let named = Named::read(word)?;
        let miss = named.miss::<K>(book)?;
        Some(ItemMiss {
            item: named.item,
            miss,
        })
    }
}

impl Listing {
    // The book is the one that listed the words, so each says a miss of an item that stands.
    pub(crate) fn of<K: Kind>(
        heap: Global,
        book: &Book<K::Quantity, K::Standard>,
        words: &[u32],
    ) -> Result<Listing, AllocError> {
        let entry = |word: &u32| Entry {
            word: *word,
            says: ItemMiss::read::<K>(book, *word),
        };
        Ok(Listing {
            entries: words.iter().map(entry).collect(heap)?,
        })
    }
}

impl fmt::Display for ItemMiss {
    fn fmt<W: fmt::Write>(&self, f: &mut fmt::Formatter<W>) -> fmt::Result {
        let miss = self.miss;
        match self.item {
            Item::Leg(number) => write!(f, "leg {number}: {miss}"),
            Item::Circuit(number) => write!(f, "circuit {number}: {miss}"),
            Item::Whole => write!(f, "the whole: {miss}"),
        }
    }
}

impl fmt::Display for Listing {
    fn fmt<W: fmt::Write>(&self, f: &mut fmt::Formatter<W>) -> fmt::Result {
        write!(f, "misses {}", self.entries.len())?;
        for Entry { word, .. } in self.entries.iter() {
            write!(f, " {word:08X}")?;
        }
        Ok(())
    }
}

// What the words say, behind them.
#[derive(Clone, Copy)]
pub(crate) struct Said<'a> {
    pub(crate) listing: &'a Listing,
}

impl<'a> fmt::Display for Said<'a> {
    fn fmt<W: fmt::Write>(&self, f: &mut fmt::Formatter<W>) -> fmt::Result {
        let entries = &self.listing.entries;
        if entries.is_empty() {
            return Ok(());
        }
        write!(f, ": ")?;
        f.write_joined(entries.iter().filter_map(|entry| entry.says), "; ")
    }
}
