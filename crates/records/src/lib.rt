// Field-book records: the words of a leg and of a circuit, and the refusals.
#![tactic(auto)]

pub mod circuit;
pub mod layout;
pub mod leg;
pub mod number;
pub mod refusal;
pub mod word;
