// The standards: classes and sets of them, findings, the rules of a standard, its two tables, and how classes are gathered.
#![tactic(auto)]

pub mod acceptance;
pub mod class;
pub mod class_set;
pub mod finding;
pub mod gathering;
pub mod level;
pub mod limits;
pub mod observed;
pub mod standard;
pub mod triangulation;
