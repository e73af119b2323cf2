//! Tests of the running doors, and of the schedulers and recipes on them.
#![tactic(auto)]

#[cfg(test)]
mod tests;
