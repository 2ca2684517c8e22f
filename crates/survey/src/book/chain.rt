// The legs that a circuit's words name, one after another.
ghost use Rattle.std.specs.Prelude.{◌≡◌, [], map, None};
ghost use Rattle.std.specs.Option.{option_map};
ghost use Rattle.records.specs.Circuits.{use_read, use_record};
ghost use Rattle.records.specs.Refusals.{first, unless};
ghost use Rattle.plainbook.specs.Findings.{form};
ghost use Rattle.plainbook.specs.Refusals.{chain_refusals};
ghost use Rattle.plainbook.specs.Surveys.{names, run_of, runs};
ghost use Rattle.survey.specs.Books.{surveyed};
ghost use Rattle.survey.specs.Runs.{run_record};

use super::Book;
use crate::path::Path;
use crate::run::Run;
use records::circuit::{LegUse, Uses};
use records::refusal::{Reason, Refusal};
use standards::finding::Form;

// The index of the first word that names a leg.
const FIRST_USE: u32 = 2;

// Whether the words name the leg.
fn names(leg: u16, words: &[u32]) -> bool
    ensures { result ≡ names leg (map use_read words.now) }
{
    let leg = u32::from(leg);
    words.iter().any(|word| *word % 256 == leg)
}

impl<Q, S> Book<Q, S> {
    // The leg that a use names, as it is run, where it stands.
    pub fn run(&self, used: LegUse) -> Option<Run<'_>>
        ensures { option_map run_record result ≡ run_of (use_record used) ((surveyed self.now).legs used.leg.value) }
    {
        let leg = self.legs.get(&used.leg.value)?;
        Some(Run {
            leg,
            sense: used.sense,
        })
    }

    // The form of the circuit that words in range name, each leg standing, named once, and beginning where the one
    // before it ended.
    pub(crate) fn chain(&self, uses: &Uses<'_>) -> Result<Form, Refusal>
        ensures { result ≡ unless (first (chain_refusals (surveyed self.now).legs [] None 2 (map use_read uses.now.words.now))) (form (runs (surveyed self.now).legs (map use_read uses.now.words.now))) }
    {
        let mut path = Path::new();
        for (i, word) in uses.words.iter().enumerate() {
            let place = FIRST_USE + i as u32;
            let Some(used) = LegUse::read(*word) else {
                unreachable()
            };
            let run = self.run(used).ok_or(Reason::Absent.at(place))?;
            if names(used.leg.value, &uses.words[..i]) {
                return Err(Reason::Twice.at(place));
            }
            if !path.joins(&run) {
                return Err(Reason::Broken.at(place));
            }
            path = path.follow(&run);
        }
        Ok(path.form())
    }
}
