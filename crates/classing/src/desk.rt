// The books at hand, and the calls made on the one that is open.
use crate::answer::Answer;
use crate::call::Ask;
use crate::classes::Graded;
use crate::kinds::{Kind, Levelling, Triangulating};
use crate::misses::Listing;
use crate::surveys::Survey;
use crate::unanswered::Unanswered;
use calls::call;
use calls::call::{Call, Reply};
use calls::carrying::carry_out;
use quantities::angles::Angles;
use quantities::heights::Heights;
use standards::level::LevelStandard;
use standards::triangulation::TriangulationStandard;
use std::alloc::Global;
use survey::book::Book;

#[derive(Drop)]
pub(crate) struct Desk {
    // the kind of the book that is open
    open: Option<Survey>,
    heights: Book<Heights, LevelStandard>,
    angles: Book<Angles, TriangulationStandard>,
}

impl Desk {
    pub(crate) fn new(heap: Global) -> Desk {
        Desk {
            open: None,
            heights: Book::open(heap, Heights, LevelStandard),
            angles: Book::open(heap, Angles, TriangulationStandard),
        }
    }

    pub(crate) fn open(&mut self, heap: Global, survey: Survey) -> Result<Answer, Unanswered> {
        self.open = Some(survey);
        self.ask(heap, Ask::Renew)
    }

    pub(crate) fn ask(&mut self, heap: Global, ask: Ask) -> Result<Answer, Unanswered> {
        match self.open.ok_or(Unanswered::NoBook)? {
            Survey::Level => carry::<Levelling>(heap, &mut self.heights, ask),
            Survey::Triangulation => carry::<Triangulating>(heap, &mut self.angles, ask),
        }
    }
}

fn call_of<K: Kind>(ask: Ask) -> Call<K::Quantity, K::Standard> {
    match ask {
        Ask::Renew => Call::Open(K::QUANTITY, K::STANDARD),
        Ask::Enter(words) => Call::Enter(words),
        Ask::Join(words) => Call::Join(words),
        Ask::StrikeLeg(number) => Call::StrikeLeg(number),
        Ask::StrikeCircuit(number) => Call::StrikeCircuit(number),
        Ask::Grade => Call::Grade,
        Ask::Misses(class, words) => Call::Misses(class, words),
    }
}

// Carries out a list of one call.
fn carry<K: Kind>(
    heap: Global,
    book: &mut Book<K::Quantity, K::Standard>,
    ask: Ask,
) -> Result<Answer, Unanswered> {
    let mut calls = Vec::new(heap);
    calls.push(call_of::<K>(ask))?;
    let reply = carry_out(heap, book, calls).pop();
    let Reply { answer, mut words } = reply.ok_or(Unanswered::NoMemory)?;
    match answer? {
        call::Answer::Done => Ok(Answer::Done),
        call::Answer::Graded(grade) => Ok(Answer::Graded(Graded {
            survey: K::SURVEY,
            grade,
        })),
        call::Answer::Listed(count) => {
            words.truncate(count);
            Ok(Answer::Listed(Listing::of::<K>(heap, book, &words)?))
        }
    }
}
