// Numbers taken in where they are in range: an Option, as std's `NonZero` has, since each caller tells its own place.
ghost use Rattle.std.specs.Prelude.{◌≡◌};
ghost use Rattle.std.specs.Option.{option_map};
ghost use Rattle.records.specs.Ranges.{between, passing};

use super::Number;

impl<const GREATEST: u16> Number<GREATEST> {
    pub fn new(value: u16) -> Option<Self>
        ensures { option_map (λ n. n.value) result ≡ passing (between 1 GREATEST) value }
    {
        if value >= 1 && value <= GREATEST {
            Some(Number { value })
        } else {
            None
        }
    }
}
