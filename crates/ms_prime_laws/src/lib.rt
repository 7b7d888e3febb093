//! What is so of primes, of powers modulo one, and of the prime of secp256k1's field. No code.
#![tactic(auto)]

pub mod laws;
