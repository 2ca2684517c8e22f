// Numbers held against a row of a table: a limit for each class, from class 1 to class 5.
ghost use Rattle.std.specs.Prelude.{◌≡◌, ◌*◌};
ghost use Rattle.standards.specs.ClassSets.{holds};
ghost use Rattle.standards.specs.Limits.{limit, at_least, at_most, at_most_each, square_at_most, less};

use crate::class::Class;
use crate::class_set::ClassSet;

// The limit of a class.
pub fn limit(limits: [u16; 5], class: Class) -> u16
    ensures { result ≡ limit limits class }
{
    limits[class as usize - 1]
}

pub fn at_least(value: u8, limits: [u16; 5]) -> ClassSet
    ensures { (k : Class) → holds result k ≡ at_least value limits k }
{
    let value = u16::from(value);
    ClassSet::of(limits.map(|limit| value >= limit))
}

pub fn at_most(value: u64, limits: [u16; 5]) -> ClassSet
    ensures { (k : Class) → holds result k ≡ at_most value limits k }
{
    at_most_each(value, limits, 1)
}

// No more than the limit for each of so many.
pub fn at_most_each(sum: u64, limits: [u16; 5], count: u8) -> ClassSet
    ensures { (k : Class) → holds result k ≡ at_most_each sum limits count k }
{
    let count = u64::from(count);
    ClassSet::of(limits.map(|limit| sum <= u64::from(limit) * count))
}

// No more than the limit times the root of `factor` times the length: compared by the squares, in whole numbers.
pub fn square_at_most(size: u64, factor: u8, limits: [u16; 5], metres: u32) -> ClassSet
    ensures { (k : Class) → holds result k ≡ square_at_most size factor limits metres k }
{
    let square = u128::from(size) * u128::from(size);
    ClassSet::of(limits.map(|limit| square <= allowed(factor, limit, metres)))
}

// The factor and the metres go together here and in the function above alone, so they are no type.
fn allowed(factor: u8, limit: u16, metres: u32) -> u128
    ensures { result ≡ factor * (limit * limit) * metres }
{
    let limit = u128::from(limit);
    u128::from(factor) * (limit * limit) * u128::from(metres)
}

pub fn less(metres: u32, limits: [u16; 5]) -> ClassSet
    ensures { (k : Class) → holds result k ≡ less metres limits k }
{
    ClassSet::of(limits.map(|limit| metres < u32::from(limit)))
}
