// A residue as a signed number.
ghost use Rattle.std.specs.Prelude.{◌≡◌, ◌+◌, unsigned_abs};
ghost use Rattle.quantities.specs.Residues.{residue_size, least_residue, signed_form, SignedRange};
ghost use Rattle.quantities.specs.NeverWrap.{HeightsNeverWrap};

use super::Residue;

impl<const GREATEST: u64> Residue<GREATEST> {
    // The number nearest to zero that has the residue.
    #[tactic(auto, using(crate::proofs::NoWrap::heights_never_wrap))]
    pub fn signed(self) -> i128
        ensures value { result ≡ signed_form (GREATEST + 1) self.entry.residue }
        ensures range { SignedRange (GREATEST + 1) result }
        ensures same_residue { least_residue (GREATEST + 1) result ≡ self.entry.residue }
        ensures size { residue_size (GREATEST + 1) self.entry.residue ≡ unsigned_abs result }
        ensures true_sums { HeightsNeverWrap }
    {
        let above = i128::from(self.residue);
        let modulus = i128::from(GREATEST) + 1;
        if 2 * above <= modulus {
            above
        } else {
            above - modulus
        }
    }
}
