// Sums modulo a whole number, for heights and angles alike.
ghost use Rattle.std.specs.Prelude.{◌≡◌, ◌+◌, ◌%◌, ◌<◌};
ghost use Rattle.quantities.specs.Residues.{residue_plus, residue_opposite, residue_size, least_residue};

mod signed;

// A sum as its least residue. The modulus follows the greatest residue, so that it can be 2^64.
#[derive(Clone, Copy)]
pub struct Residue<const GREATEST: u64> {
    residue: u64,
    ghost fits: { residue < GREATEST + 1 },
}

impl<const GREATEST: u64> Residue<GREATEST> {
    // The element of a number that is not below zero.
    fn of_size(size: u64) -> Self
        ensures { result.residue ≡ size % (GREATEST + 1) }
    {
        if size <= GREATEST {
            return Residue { residue: size };
        }
        Residue {
            residue: size % (GREATEST + 1),
        }
    }

    pub(crate) fn of_whole(number: i64) -> Self
        ensures { result.residue ≡ least_residue (GREATEST + 1) number }
    {
        if number < 0 {
            return Self::of_size(number.unsigned_abs()).opposite();
        }
        Self::of_size(number.unsigned_abs())
    }

    pub(crate) fn zero() -> Self
        ensures { result.residue ≡ 0 }
    {
        Residue { residue: 0 }
    }

    pub(crate) fn sum(self, other: Self) -> Self
        ensures { result.residue ≡ residue_plus (GREATEST + 1) self.entry.residue other.entry.residue }
    {
        let room = GREATEST - self.residue;
        if other.residue <= room {
            return Residue {
                residue: self.residue + other.residue,
            };
        }
        Residue {
            residue: other.residue - room - 1,
        }
    }

    pub(crate) fn opposite(self) -> Self
        ensures { result.residue ≡ residue_opposite (GREATEST + 1) self.entry.residue }
    {
        if self.residue == 0 {
            return self;
        }
        Residue {
            residue: GREATEST - self.residue + 1,
        }
    }

    pub(crate) fn size(self) -> u64
        ensures { result ≡ residue_size (GREATEST + 1) self.entry.residue }
    {
        self.residue.min(self.opposite().residue)
    }
}
