// The limits of both tables, tried on each limit and on either side of it.
#![tactic(auto)]

#[cfg(test)]
mod level;
#[cfg(test)]
mod triangulation;
