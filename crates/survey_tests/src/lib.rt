// Books on the order of their refusals, and on the limits of a grade.
#![tactic(auto)]

#[cfg(test)]
mod grades;
#[cfg(test)]
mod orders;
#[cfg(test)]
mod said;
