// The way along a circuit's legs: where it began, where it has come to, and how many legs it has run.
ghost use Rattle.std.specs.Prelude.{◌≡◌, not, None, Some};
ghost use Rattle.std.specs.Option.{option_map};
ghost use Rattle.plainbook.specs.Refusals.{breaks};
ghost use Rattle.survey.specs.Paths.{come_to, followed, path_form};
ghost use Rattle.survey.specs.Runs.{run_record};

use crate::run::Run;
use standards::finding::Form;

#[derive(Clone, Copy)]
pub struct Path {
    // the first node and the last, once a leg is run
    pub nodes: Option<(u16, u16)>,
    // at most 255
    pub legs: u8,
}

impl Path {
    pub fn new() -> Path
        ensures { result ≡ record { nodes = None; legs = 0 } }
    {
        Path {
            nodes: None,
            legs: 0,
        }
    }

    // Whether the run begins where the way has come to, if it has begun.
    pub fn joins(self, run: &Run<'_>) -> bool
        ensures { result ≡ not (breaks (come_to self) (Some (run_record run.now))) }
    {
        let (begin, _) = run.nodes();
        self.nodes.is_none_or(|(_, come)| come == begin)
    }

    // The way with one leg more.
    pub fn follow(self, run: &Run<'_>) -> Path
        ensures { result ≡ followed self (run_record run.now) }
    {
        let (begin, end) = run.nodes();
        let begun = self.nodes.map_or(begin, |(begun, _)| begun);
        Path {
            nodes: Some((begun, end)),
            legs: self.legs.saturating_add(1),
        }
    }

    // Closed where it has come back to where it began.
    pub fn form(self) -> Form
        ensures { result ≡ path_form self }
    {
        let closed = self.nodes.is_some_and(|(begun, come)| begun == come);
        Form {
            closed,
            legs: self.legs,
        }
    }
}
