// Calls on a book as values, and lists of them carried out, each answered as the plain book answers.
#![tactic(auto)]

pub mod call;
pub mod carrying;
