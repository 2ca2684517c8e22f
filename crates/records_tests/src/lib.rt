// Records on the limits of their layout and of their ranges.
#![tactic(auto)]

#[cfg(test)]
mod circuits;
#[cfg(test)]
mod legs;
#[cfg(test)]
mod refusals;
