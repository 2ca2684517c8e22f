// The members of a set of classes: made, tested, intersected and counted.
ghost use Rattle.std.specs.Prelude.{◌≡◌, true, false, ◌&&◌};
ghost use Rattle.standards.specs.declared.class.Class.{Class};
ghost use Rattle.standards.specs.Classes.{entry, least, Least, members};
ghost use Rattle.standards.specs.ClassSets.{holds, SetsByMembers};

use super::ClassSet;
use crate::class::Class;

impl ClassSet {
    pub fn all() -> ClassSet
        ensures { (k : Class) → holds result k ≡ true }
    {
        ClassSet { bits: 0b1_1111 }
    }

    // The classes that passed a test, the tests given from class 1 to class 5.
    pub fn of(passed: [bool; 5]) -> ClassSet
        ensures members { (k : Class) → holds result k ≡ entry false passed k }
        ensures only { SetsByMembers }
    {
        let [first, second, third, fourth, fifth] = passed;
        ClassSet {
            bits: u8::from(first)
                + 2 * u8::from(second)
                + 4 * u8::from(third)
                + 8 * u8::from(fourth)
                + 16 * u8::from(fifth),
        }
    }

    pub fn contains(self, class: Class) -> bool
        ensures { result ≡ holds self class }
    {
        (self.bits >> (class.number() - 1)) % 2 == 1
    }

    // The classes in both sets.
    pub fn both(self, other: ClassSet) -> ClassSet
        ensures { (k : Class) → holds result k ≡ (holds self k && holds other k) }
    {
        ClassSet {
            bits: self.bits & other.bits,
        }
    }

    // The best class in the set, if it has any.
    pub fn best(self) -> Option<Class>
        ensures value { result ≡ least (holds self) }
        ensures least { Least (holds self) result }
    {
        Class::try_from(self.bits.trailing_zeros() as u8 + 1).ok()
    }

    pub fn count(self) -> u32
        ensures { result ≡ members (holds self) }
    {
        self.bits.count_ones()
    }
}
