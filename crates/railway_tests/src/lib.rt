//! Tests of railways on examples: both worked ones, and every limit on both sides.

#![tactic(auto)]

#[cfg(test)]
mod tests;
