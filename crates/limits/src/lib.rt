//! Tests of cases, messages and least times: worked examples, and every limit on both sides.

#![tactic(auto)]

#[cfg(test)]
mod tests;
