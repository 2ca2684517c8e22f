// How each call is written, and what it does.
use crate::names::NotAName;
use std::fmt;
use std::str::FromStr;

#[derive(Clone, Copy)]
pub(crate) enum Form {
    Show,
    Judge,
    Open,
    Enter,
    Join,
    StrikeLeg,
    StrikeCircuit,
    Grade,
    Misses,
}

pub(crate) const FORMS: [Form; 9] = [
    Form::Show,
    Form::Judge,
    Form::Open,
    Form::Enter,
    Form::Join,
    Form::StrikeLeg,
    Form::StrikeCircuit,
    Form::Grade,
    Form::Misses,
];

impl Form {
    // The name, and then the arguments.
    pub(crate) fn written(self) -> &'static str {
        match self {
            Form::Show => "show level|triangulation WORD..",
            Form::Judge => "judge level|triangulation WORD..",
            Form::Open => "open level|triangulation",
            Form::Enter => "enter WORD..",
            Form::Join => "join WORD..",
            Form::StrikeLeg => "strike-leg N",
            Form::StrikeCircuit => "strike-circuit N",
            Form::Grade => "grade",
            Form::Misses => "misses CLASS N",
        }
    }

    pub(crate) fn does(self) -> &'static str {
        match self {
            Form::Show => "tell what a leg or a circuit says",
            Form::Judge => "tell which classes a leg meets by itself",
            Form::Open => "open a new, empty book",
            Form::Enter => "enter a leg into the book",
            Form::Join => "join legs of the book into a circuit",
            Form::StrikeLeg => "strike leg N from the book",
            Form::StrikeCircuit => "strike circuit N from the book",
            Form::Grade => "tell which classes the book has earned",
            Form::Misses => "list what the book misses at CLASS, 1 to 5, in at most N words",
        }
    }

    pub(crate) fn name(self) -> &'static str {
        self.written().split_ascii_whitespace().next().unwrap_or("")
    }
}

impl FromStr for Form {
    type Err = NotAName;

    fn from_str(name: &str) -> Result<Form, NotAName> {
        FORMS
            .into_iter()
            .find(|form| form.name() == name)
            .ok_or(NotAName)
    }
}

// The names of all calls.
#[derive(Clone, Copy)]
pub(crate) struct Names;

impl fmt::Display for Names {
    fn fmt<W: fmt::Write>(&self, f: &mut fmt::Formatter<W>) -> fmt::Result {
        f.write_joined(FORMS.into_iter().map(Form::name), ", ")
    }
}
