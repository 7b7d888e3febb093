//! What calls answer that the programs don't make, and what the programs can't show of those that they make: reads and writes in
//! pieces, calls that fail, and sizes that aren't printed. What words and a source show are rows of `examples/rows/`, and what is
//! promised of the calls stands with them.
#![tactic(auto)]

#[cfg(test)]
mod assets_tests;
#[cfg(test)]
mod audit_tests;
#[cfg(test)]
mod height_tests;
#[cfg(test)]
mod interp_tests;
#[cfg(test)]
mod io_tests;
#[cfg(test)]
mod letters;
#[cfg(test)]
mod policy_tests;
#[cfg(test)]
mod replay_tests;
#[cfg(test)]
mod samples;
#[cfg(test)]
mod sat_tests;
#[cfg(test)]
mod tree_tests;
