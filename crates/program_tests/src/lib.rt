//! Tests of the whole program over places in memory, and of the worked lists of commands.
#![tactic(auto)]

#[cfg(test)]
mod lines;
#[cfg(test)]
mod worked;
