// A survey's book judged: what it shows, and its grade.
#![tactic(auto)]

pub mod collect;
pub mod findings;
pub mod grade;
pub mod judge;
pub mod loose;
