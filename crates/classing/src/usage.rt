// How the program is used.
use crate::forms::FORMS;
use std::fmt;

#[derive(Clone, Copy)]
pub(crate) struct Usage;

const INPUTS: &str = "usage: classing [--words] [FILE..]
Answers the calls in each FILE, one to a line. Standard input is read for - and where no FILE is given.
With --words, plain words for a person follow behind misses and behind a line that is no call.";

const WORDS: &str =
    "A WORD has one to eight hexadecimal digits. CLASS and N are decimal; for misses N is at most 65535.
Blank lines and lines that begin with # are passed over.";

impl fmt::Display for Usage {
    fn fmt<W: fmt::Write>(&self, f: &mut fmt::Formatter<W>) -> fmt::Result {
        writeln!(f, "{INPUTS}")?;
        for form in FORMS {
            writeln!(f, "  {:<34}{}", form.written(), form.does())?;
        }
        write!(f, "{WORDS}")
    }
}
