//! What both programs answer where reading or writing fails, and what `gen` makes: tests of top calls. What is promised of each call
//! stands with it; what the programs answer to words and files stands in `examples/rows/` and `examples/psbt/`, and what the library
//! answers is tried by `.ci/library`.
#![tactic(auto)]

#[cfg(test)]
mod asking;
#[cfg(test)]
mod fault_tests;
#[cfg(test)]
mod generator_tests;
#[cfg(test)]
mod psbt_fault_tests;
