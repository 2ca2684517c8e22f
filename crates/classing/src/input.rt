// An input that an argument names, its lines answered.
use crate::answer::{Told, answer_to};
use crate::desk::Desk;
use crate::line::Line;
use crate::manner::Manner;
use crate::unanswered::Unanswered;
use crate::usage::Usage;
use std::io::{BufRead, BufReader, Read};
use std::{fs, io};

#[derive(Clone, Copy)]
pub(crate) enum Input<'a> {
    Help,
    Standard,
    File(&'a str),
}

impl<'a> From<&'a str> for Input<'a> {
    fn from(argument: &'a str) -> Input<'a> {
        match argument {
            "--help" => Input::Help,
            "-" => Input::Standard,
            name => Input::File(name),
        }
    }
}

impl<'a> Input<'a> {
    pub(crate) fn name(self) -> &'a str {
        match self {
            Input::Help => "--help",
            Input::Standard => "standard input",
            Input::File(name) => name,
        }
    }

    pub(crate) fn answer(self, rt: &HostRuntime, manner: Manner) -> io::Result<()> {
        match self {
            Input::Help => tell_usage(rt),
            Input::Standard => answer_lines(rt, manner, self.name(), rt.stdin()),
            Input::File(name) => match fs::open(rt, name) {
                Ok(file) => answer_lines(rt, manner, name, file),
                Err(error) => {
                    eprintln!(rt; "classing: {name} cannot be opened: {error}\n{}", Usage)?;
                    Err(error)
                }
            },
        }
    }
}

fn tell_usage(rt: &HostRuntime) -> io::Result<()> {
    println!(rt; "{}", Usage)
}

// Answers the lines of an input, with a desk of its own; in words, an input with no byte is told how the program is used.
fn answer_lines<R: Read + Drop>(
    rt: &HostRuntime,
    manner: Manner,
    name: &str,
    input: R,
) -> io::Result<()> {
    let mut input = BufReader::new(rt.alloc(), input)?;
    let mut bytes = Vec::new(rt.alloc());
    let mut desk = Desk::new(rt.alloc());
    // a count that no input reaches, since every loop is proved to end
    for line in 0..u64::MAX {
        bytes.clear();
        match input.read_until(b'\n', &mut bytes) {
            Ok(0) if line == 0 && manner == Manner::Words => return tell_usage(rt),
            Ok(0) => break,
            Ok(_) => answer_line(rt, manner, &mut desk, bytes.as_slice())?,
            Err(error) => {
                eprintln!(rt; "classing: {name} cannot be read: {error}")?;
                return Err(error);
            }
        }
    }
    Ok(())
}

fn answer_line(rt: &HostRuntime, manner: Manner, desk: &mut Desk, bytes: &[u8]) -> io::Result<()> {
    let (text, answer) = match Line::read(bytes) {
        Line::Nothing => return Ok(()),
        Line::Unreadable => ("(unreadable line)", Err(Unanswered::NotACall(None))),
        Line::Text(text) => (text, answer_to(rt.alloc(), desk, text)),
    };
    let answer = &answer;
    let told = Told { manner, answer };
    println!(rt; "{text} -> {told}")
}
