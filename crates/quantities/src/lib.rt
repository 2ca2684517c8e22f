// Quantities: what a leg carries and a circuit sums.
#![tactic(auto)]

pub mod acceptance;
pub mod angles;
pub mod heights;
pub mod quantity;
pub mod residue;
#[cfg(test)]
mod tests;
