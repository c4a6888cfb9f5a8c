//! The tests, by subject.
mod examples;
mod primitives;
mod program;
mod refusals;
mod streams;
mod vectors;
