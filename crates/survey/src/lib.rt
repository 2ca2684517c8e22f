// The survey's book: opened, legs entered and circuits joined, and both struck, each call equal to the plain book's step.
#![tactic(auto)]

pub mod book;
pub mod path;
pub mod run;
