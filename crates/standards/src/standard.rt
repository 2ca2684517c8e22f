// What a standard is: how many rules it has, what it accepts, and which classes a finding meets under each rule.
//
// Rules are numbers and no enum, since the word of a miss tells a rule by its number; and legs, circuits and the whole have each a
// table of their own, so a finding and a rule go together into three methods that share nothing else.
ghost use Rattle.std.specs.Prelude.{◌≡◌};
ghost use Rattle.standards.specs.declared.class.Class.{Class};
ghost use Rattle.standards.specs.ClassSets.{holds};
ghost use Rattle.standards.specs.Rules.{Rules};

use crate::class_set::ClassSet;
use crate::finding::{CircuitFinding, Directions, Form, LegFinding, WholeFinding};
use records::leg::{Length, Readings};

pub trait Standard {
    ghost meaning: { Self → Rules };

    fn directions(&self) -> Directions
        ensures { result ≡ (meaning self.now).directions };

    fn accepts_length(&self, length: Length) -> bool
        ensures { result ≡ (meaning self.now).accepts_length length };

    fn accepts_readings(&self, readings: Readings) -> bool
        ensures { result ≡ (meaning self.now).accepts_readings readings };

    fn accepts_form(&self, form: Form) -> bool
        ensures { result ≡ (meaning self.now).accepts_form form };

    fn leg_rules(&self) -> u8
        ensures { result ≡ (meaning self.now).legs.count };

    fn circuit_rules(&self) -> u8
        ensures { result ≡ (meaning self.now).circuits.count };

    fn whole_rules(&self) -> u8
        ensures { result ≡ (meaning self.now).whole.count };

    // The classes that a finding meets under a rule; rules are counted from 0.
    fn leg_classes(&self, rule: u8, finding: &LegFinding) -> ClassSet
        ensures { (k : Class) → holds result k ≡ (meaning self.now).legs.meets rule finding.now k };

    fn circuit_classes(&self, rule: u8, finding: &CircuitFinding) -> ClassSet
        ensures { (k : Class) → holds result k ≡ (meaning self.now).circuits.meets rule finding.now k };

    fn whole_classes(&self, rule: u8, finding: &WholeFinding) -> ClassSet
        ensures { (k : Class) → holds result k ≡ (meaning self.now).whole.meets rule finding.now k };
}
