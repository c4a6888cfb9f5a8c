//! Tests of the library crates that no run of the program can be: of the keyed hashes, of scrypt
//! and of the cipher, of the vectors, of the examples, of readers and writers that fail, and of
//! calls that are refused memory. The others are in `tests/`, over the program and the C library.
//!
//! They have a crate of their own, since a crate with tests is proved twice.
#![tactic(auto)]

#[cfg(test)]
mod tests;
