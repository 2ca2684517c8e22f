// Classing: answers the calls in the inputs that its arguments name, or on standard input; to the letter, or with plain words behind.
#![tactic(auto)]

mod answer;
mod call;
mod classes;
mod desk;
mod forms;
mod input;
mod judge;
mod kinds;
mod line;
mod manner;
mod misses;
mod names;
mod rules;
mod show;
mod surveys;
mod unanswered;
mod units;
mod usage;

use input::Input;
use manner::Manner;
use std::env::Args;
use std::iter::Skip;
use std::{env, io};

// The arguments after the program's own name.
fn arguments(rt: &HostRuntime) -> io::Result<Skip<Args>> {
    match env::args(rt) {
        Ok(arguments) => Ok(arguments.skip(1)),
        Err(error) => {
            eprintln!(rt; "classing: an argument cannot be read: {error}")?;
            Err(error)
        }
    }
}

fn main(rt: HostRuntime) -> io::Result<()> {
    let mut manner = Manner::Letter;
    let mut names = Vec::new(rt.alloc());
    for argument in arguments(&rt)? {
        match argument.parse() {
            Ok(named) => manner = named,
            Err(_) => names.push(argument)?,
        }
    }
    if names.is_empty() {
        return Input::Standard.answer(&rt, manner);
    }
    for argument in names.iter() {
        let input = Input::from(argument.as_str());
        if names.len() > 1 {
            println!(rt; "# {}", input.name())?;
        }
        input.answer(&rt, manner)?;
    }
    Ok(())
}
