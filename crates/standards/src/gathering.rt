// The classes that every rule meets on every finding, gathered the same way for legs, for circuits and for the whole.
ghost use Rattle.std.specs.Prelude.{◌≡◌};
ghost use Rattle.standards.specs.declared.class.Class.{Class};
ghost use Rattle.standards.specs.ClassSets.{holds};
ghost use Rattle.standards.specs.Gathering.{Gathered, KeepsOrder};
ghost use Rattle.standards.specs.NoWorse.{Kind, leg_kind, circuit_kind, whole_kind};
ghost use Rattle.standards.specs.Rules.{Rules, Table};

use crate::class_set::ClassSet;
use crate::finding::{CircuitFinding, LegFinding, WholeFinding};
use crate::standard::Standard;

// A kind of finding, and the part of a standard that judges it. Each impl passes on to the methods of its own table, as a standard has one
// for legs, one for circuits and one for the whole.
pub trait Finding: Sized {
    ghost kind: { Kind Self };

    ghost table: { (rules : Rules) → Table kind rules.directions };

    fn rules<S: Standard>(standard: &S) -> u8
        ensures { result ≡ (table (S.Standard.meaning standard.now)).count };

    fn classes<S: Standard>(&self, standard: &S, rule: u8) -> ClassSet
        ensures { (k : Class) → holds result k ≡ (table (S.Standard.meaning standard.now)).meets rule self.now k };
}

impl Finding for LegFinding {
    ghost kind = { leg_kind };

    ghost table = { λ rules. rules.legs };

    fn rules<S: Standard>(standard: &S) -> u8 {
        standard.leg_rules()
    }

    fn classes<S: Standard>(&self, standard: &S, rule: u8) -> ClassSet {
        standard.leg_classes(rule, self)
    }
}

impl Finding for CircuitFinding {
    ghost kind = { circuit_kind };

    ghost table = { λ rules. rules.circuits };

    fn rules<S: Standard>(standard: &S) -> u8 {
        standard.circuit_rules()
    }

    fn classes<S: Standard>(&self, standard: &S, rule: u8) -> ClassSet {
        standard.circuit_classes(rule, self)
    }
}

impl Finding for WholeFinding {
    ghost kind = { whole_kind };

    ghost table = { λ rules. rules.whole };

    fn rules<S: Standard>(standard: &S) -> u8 {
        standard.whole_rules()
    }

    fn classes<S: Standard>(&self, standard: &S, rule: u8) -> ClassSet {
        standard.whole_classes(rule, self)
    }
}

// The classes that every rule meets on every finding.
pub fn gather<S: Standard, F: Finding>(standard: &S, findings: &[F]) -> ClassSet
    ensures gathered { Gathered (F.Finding.table (S.Standard.meaning standard.now)) findings.now (holds result) }
    ensures law { KeepsOrder (F.Finding.table (S.Standard.meaning standard.now)) }
{
    let mut met = ClassSet::all();
    for finding in findings {
        for rule in 0..F::rules(standard) {
            met = met.both(finding.classes(standard, rule));
        }
    }
    met
}
