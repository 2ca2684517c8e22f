// The misses of a survey's book: a word for every rule that a leg, a circuit or the whole misses at a class.
#![tactic(auto)]

mod item;
pub mod list;
mod standing;
