// Which circuit uses a leg.
ghost use Rattle.std.specs.Prelude.{◌≡◌};
ghost use Rattle.plainbook.specs.Surveys.{user};
ghost use Rattle.survey.specs.Books.{surveyed};

use super::Book;

impl<Q, S> Book<Q, S> {
    // The lowest circuit that uses the leg. Two loops and no `find`, which would want a function of its own for what a circuit names and
    // a `map` for the number beside it.
    pub fn user_of(&self, leg: u16) -> Option<u16>
        ensures { result ≡ user (surveyed self.now) leg }
    {
        for (number, circuit) in self.circuits.iter() {
            for used in circuit.legs.iter() {
                if used.leg.value == leg {
                    return Some(*number);
                }
            }
        }
        None
    }
}
