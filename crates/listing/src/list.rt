// The misses of a book at a class, written into words that the caller lends.
ghost use Rattle.std.specs.Prelude.{◌≡◌, ◌+◌, ◌^◌, ◌<◌, ◌≤◌, length};
ghost use Rattle.std.specs.BTreeMap.{values};
ghost use Rattle.std.specs.List.{flat_map};
ghost use Rattle.plainbook.specs.Misses.{survey_misses};
ghost use Rattle.plainbook.specs.Steps.{step, listing};
ghost use Rattle.survey.specs.Books.{plain_book, surveyed, AnswersAlways};
ghost use Rattle.listing.specs.Answered.{is_listed};
ghost use Rattle.listing.specs.Listed.{item_listing};
ghost use Rattle.listing.specs.Writing.{place_number, put};

use crate::item::{Asked, Place, list_misses};
use crate::standing::Standing;
use grading::findings::whole_finding;
use grading::judge::check_grade;
use quantities::quantity::Quantity;
use records::refusal::{Reason, Refusal};
use standards::class::Class;
use standards::standard::Standard;
use std::collections::BTreeMap;
use survey::book::Book;

// Lists the misses of legs or of circuits from an index on, as far as there are words, and says where the list ends.
fn list_standing<Q: Quantity, S: Standard, T: Standing>(
    book: &Book<Q, S>,
    items: &BTreeMap<u16, T>,
    class: Class,
    words: &mut [u32],
    start: usize,
) -> usize
    requires start { start < 2 ^ 16 }
    requires few { length items.now.entries ≤ 128 }
    ensures end { result ≡ start + length (flat_map (item_listing (T.Shown.table (S.Standard.meaning book.now.standard)) class (place_number T.place) T.number (T.shown (Q.Quantity.meaning book.now.quantity) (surveyed book.now))) (values items.now)) }
    ensures after { words.new ≡ put start (flat_map (item_listing (T.Shown.table (S.Standard.meaning book.now.standard)) class (place_number T.place) T.number (T.shown (Q.Quantity.meaning book.now.quantity) (surveyed book.now))) (values items.now)) words.old }
{
    let mut at = start;
    for item in items.values() {
        let asked = Asked {
            class,
            place: T::place(),
            item: item.number(),
        };
        at = list_misses(&book.standard, asked, &item.finding(book), words, at);
    }
    at
}

// Lists all misses, as far as there are words, and says how many they are. The class is asked of the book, and the words are the
// caller's, so the two are no type.
fn list_all<Q: Quantity, S: Standard>(book: &Book<Q, S>, class: Class, words: &mut [u32]) -> usize
    ensures count { result ≡ length (survey_misses (Q.Quantity.meaning book.now.quantity) (S.Standard.meaning book.now.standard) (surveyed book.now) class) }
    ensures after { words.new ≡ put 0 (survey_misses (Q.Quantity.meaning book.now.quantity) (S.Standard.meaning book.now.standard) (surveyed book.now) class) words.old }
{
    let legs = list_standing(book, &book.legs, class, words, 0);
    let circuits = list_standing(book, &book.circuits, class, words, legs);
    let asked = Asked {
        class,
        place: Place::Whole,
        item: 0,
    };
    list_misses(&book.standard, asked, &whole_finding(book), words, circuits)
}

// Writes a word for every rule that an item misses at the class, and answers how many. They are counted first, with no word to
// write into, so that a refusal leaves every word.
pub fn misses<Q: Quantity, S: Standard>(
    book: &Book<Q, S>,
    class: u8,
    words: &mut [u32],
) -> Result<usize, Refusal>
    ensures answer { AnswersAlways is_listed (step Q.Quantity.meaning S.Standard.meaning (listing class words.old) (plain_book book.now)) (plain_book book.now) result }
    ensures words { words.new ≡ (step Q.Quantity.meaning S.Standard.meaning (listing class words.old) (plain_book book.now)).words }
{
    let class = Class::try_from(class)?;
    check_grade(book)?;
    let count = list_all(book, class, &mut []);
    if words.len() < count {
        return Err(Reason::TooFew.at(count as u32));
    }
    Ok(list_all(book, class, words))
}
