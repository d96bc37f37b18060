//! Tests of the commands over what no process can be given: memory that is refused, growth by growth, a machine that
//! stops at each call of its disk, and readers and writers that fail or are interrupted after each number of bytes.
//! What a command does over whole streams and real files is tested by the program itself, with the cases of
//! tests/cases.
//!
//! And tests of scripts and worlds over memory that is refused, growth by growth, and of the calls of a world that no
//! command makes. Which scripts are read, and what is answered to their events, is tested by the program itself, with
//! the cases of tests/cases and the scripts that tests/shuffled makes.
#![tactic(auto)]

#[cfg(test)]
mod calls;
#[cfg(test)]
mod left_files;
#[cfg(test)]
mod machine;
#[cfg(test)]
mod refused_commands;
#[cfg(test)]
mod refused_worlds;
#[cfg(test)]
mod stops;
#[cfg(test)]
mod streams;
#[cfg(test)]
mod worlds;
