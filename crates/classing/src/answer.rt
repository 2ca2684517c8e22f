// What a line is answered.
use crate::call::Call;
use crate::classes::Graded;
use crate::desk::Desk;
use crate::forms::Names;
use crate::judge::{Judgment, judge};
use crate::kinds::{Kind, Levelling, Triangulating};
use crate::manner::Manner;
use crate::misses::{Listing, Said};
use crate::show::{CircuitShown, LegShown, show_circuit, show_leg};
use crate::surveys::Survey;
use crate::unanswered::Unanswered;
use records::refusal::Fault;
use records::word;
use std::alloc::Global;
use std::fmt;

#[derive(Drop)]
pub(crate) enum Answer {
    Leg(LegShown),
    Circuit(CircuitShown),
    Judged(Judgment),
    Done,
    Graded(Graded),
    Listed(Listing),
}

pub(crate) fn answer_to(heap: Global, desk: &mut Desk, text: &str) -> Result<Answer, Unanswered> {
    match Call::read(heap, text)? {
        Call::Show(Survey::Level, words) => Ok(show::<Levelling>(heap, &words)?),
        Call::Show(Survey::Triangulation, words) => Ok(show::<Triangulating>(heap, &words)?),
        Call::Judge(Survey::Level, words) => Ok(Answer::Judged(judge::<Levelling>(heap, &words)?)),
        Call::Judge(Survey::Triangulation, words) => {
            Ok(Answer::Judged(judge::<Triangulating>(heap, &words)?))
        }
        Call::Open(survey) => desk.open(heap, survey),
        Call::Ask(ask) => desk.ask(heap, ask),
    }
}

// A record is a circuit's where its first word is of a circuit's kind, and else a leg's.
fn show<K: Kind>(heap: Global, words: &[u32]) -> Result<Answer, Fault> {
    match words {
        [head, ..] if word::Kind::Circuit.is_of(*head) => Ok(Answer::Circuit(show_circuit::<K>(
            heap, words,
        )?)),
        _ => Ok(Answer::Leg(show_leg::<K>(words)?)),
    }
}

impl fmt::Display for Answer {
    fn fmt<W: fmt::Write>(&self, f: &mut fmt::Formatter<W>) -> fmt::Result {
        match self {
            Answer::Leg(leg) => write!(f, "{leg}"),
            Answer::Circuit(circuit) => write!(f, "{circuit}"),
            Answer::Judged(judgment) => write!(f, "{judgment}"),
            Answer::Done => write!(f, "done"),
            Answer::Graded(graded) => write!(f, "{graded}"),
            Answer::Listed(listing) => write!(f, "{listing}"),
        }
    }
}

// An answer, or why there is none, as the manner wants it told.
#[derive(Clone, Copy)]
pub(crate) struct Told<'a> {
    pub(crate) manner: Manner,
    pub(crate) answer: &'a Result<Answer, Unanswered>,
}

impl<'a> fmt::Display for Told<'a> {
    fn fmt<W: fmt::Write>(&self, f: &mut fmt::Formatter<W>) -> fmt::Result {
        match self.answer {
            Ok(answer) => write!(f, "{answer}")?,
            Err(unanswered) => write!(f, "{unanswered}")?,
        }
        match (self.manner, self.answer) {
            (Manner::Words, Ok(Answer::Listed(listing))) => write!(f, "{}", Said { listing }),
            (Manner::Words, Err(Unanswered::NotACall(Some(form)))) => {
                write!(f, ": write {}", form.written())
            }
            (Manner::Words, Err(Unanswered::NotACall(None))) => {
                write!(f, ": the calls are {}", Names)
            }
            _ => Ok(()),
        }
    }
}
