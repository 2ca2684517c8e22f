// Legs that no circuit uses: legs outside, circuits and their legs inside. A use goes on to the next leg by a labelled `continue`; the
// first leg that has none is the answer.
ghost use Rattle.std.specs.Prelude.{◌≡◌};
ghost use Rattle.plainbook.specs.Surveys.{loose_leg};
ghost use Rattle.survey.specs.Books.{surveyed};

use survey::book::Book;

// The lowest leg that no circuit uses.
pub fn loose_leg<Q, S>(book: &Book<Q, S>) -> Option<u16>
    ensures { result ≡ loose_leg (surveyed book.now) }
{
    'legs: for number in book.legs.keys() {
        for circuit in book.circuits.values() {
            for used in circuit.legs.iter() {
                if used.leg.value == *number {
                    continue 'legs;
                }
            }
        }
        return Some(*number);
    }
    None
}
