// The calls, read from a line's text.
use crate::forms::Form;
use crate::surveys::Survey;
use crate::unanswered::Unanswered;
use std::alloc::Global;
use std::str::SplitAsciiWhitespace;

// The most words that `misses` is lent.
const MOST_LENT: u32 = 65_535;

#[derive(Drop)]
pub(crate) enum Call {
    // what a leg's or a circuit's words say
    Show(Survey, Vec<u32>),
    // the classes that a leg meets by itself
    Judge(Survey, Vec<u32>),
    Open(Survey),
    Ask(Ask),
}

// A call on the book that is open, before its kind is known; and so not the library's, which has a quantity and a standard.
#[derive(Drop)]
pub(crate) enum Ask {
    // puts a new, empty book in its place
    Renew,
    Enter(Vec<u32>),
    Join(Vec<u32>),
    StrikeLeg(u32),
    StrikeCircuit(u32),
    Grade,
    // the class, and the words lent
    Misses(u8, Vec<u32>),
}

impl Call {
    pub(crate) fn read(heap: Global, text: &str) -> Result<Call, Unanswered> {
        let mut words = text.split_ascii_whitespace();
        let name = words.next().unwrap_or("");
        let form = name.parse().map_err(|_| Unanswered::NotACall(None))?;
        let mut arguments = Arguments { form, words };
        let call = match form {
            Form::Show => Call::Show(arguments.survey()?, arguments.record(heap)?),
            Form::Judge => Call::Judge(arguments.survey()?, arguments.record(heap)?),
            Form::Open => Call::Open(arguments.survey()?),
            Form::Enter => Call::Ask(Ask::Enter(arguments.record(heap)?)),
            Form::Join => Call::Ask(Ask::Join(arguments.record(heap)?)),
            Form::StrikeLeg => Call::Ask(Ask::StrikeLeg(arguments.number()?)),
            Form::StrikeCircuit => Call::Ask(Ask::StrikeCircuit(arguments.number()?)),
            Form::Grade => Call::Ask(Ask::Grade),
            Form::Misses => Call::Ask(Ask::Misses(arguments.class()?, arguments.lent(heap)?)),
        };
        arguments.end()?;
        Ok(call)
    }
}

// The words after a call's name.
#[derive(Drop)]
struct Arguments<'a> {
    form: Form,
    words: SplitAsciiWhitespace<'a>,
}

impl<'a> Arguments<'a> {
    fn unfit(&self) -> Unanswered {
        Unanswered::NotACall(Some(self.form))
    }

    fn next(&mut self) -> Result<&'a str, Unanswered> {
        self.words.next().ok_or(self.unfit())
    }

    fn end(&mut self) -> Result<(), Unanswered> {
        match self.words.next() {
            None => Ok(()),
            Some(_) => Err(self.unfit()),
        }
    }

    fn survey(&mut self) -> Result<Survey, Unanswered> {
        self.next()?.parse().map_err(|_| self.unfit())
    }

    // A number in decimal. One that is too great for 32 bits is read as the greatest of them.
    fn number(&mut self) -> Result<u32, Unanswered> {
        let digits = self.next()?;
        if !digits.bytes().all(|digit| digit.is_ascii_digit()) {
            return Err(self.unfit());
        }
        Ok(digits.parse().unwrap_or(u32::MAX))
    }

    // A class's number. One above 255 is read as 255, which is no class either.
    fn class(&mut self) -> Result<u8, Unanswered> {
        Ok(u8::try_from(self.number()?).unwrap_or(u8::MAX))
    }

    // As many words as the number says, all 0.
    fn lent(&mut self, heap: Global) -> Result<Vec<u32>, Unanswered> {
        let count = self.number()?;
        if count > MOST_LENT {
            return Err(self.unfit());
        }
        Ok(vec![in heap; 0; count as usize]?)
    }

    // The words of a record: all that are left.
    fn record(&mut self, heap: Global) -> Result<Vec<u32>, Unanswered> {
        let unfit = self.unfit();
        self.words
            .by_ref()
            .map(|text| word(text).ok_or(unfit))
            .try_collect(heap)
    }
}

// A word in hexadecimal: one to eight digits, and nothing else.
fn word(text: &str) -> Option<u32> {
    if text.len() > 8 || !text.bytes().all(|digit| digit.is_ascii_hexdigit()) {
        return None;
    }
    u32::from_str_radix(text, 16).ok()
}
