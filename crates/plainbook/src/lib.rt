// The plain book: a survey's book as definitions, and what is promised of every way to use it.
#![tactic(auto)]

ghost use Rattle.std.specs.Prelude.{◌≡◌};
ghost use Rattle.plainbook.specs.Examples.{Examples};
ghost use Rattle.plainbook.specs.Figures.{Figures};
ghost use Rattle.plainbook.specs.Promise.{Promise};

use quantities::quantity::Quantity;
use standards::standard::Standard;

// The worked figures are right.
pub fn figures_hold() -> u8
    ensures zero { result ≡ 0 }
    ensures holds { Figures }
{
    0
}

// There are different books that are one survey, otherwise written, and books that are no worse than another.
pub fn examples_hold() -> u8
    ensures zero { result ≡ 0 }
    ensures holds { Examples }
{
    0
}

// What is promised of every way holds for every quantity and every standard.
pub fn promise_holds<Q: Quantity, S: Standard>() -> u8
    ensures zero { result ≡ 0 }
    ensures holds { Promise Q.Quantity.meaning S.Standard.meaning }
{
    0
}
