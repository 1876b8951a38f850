//! Tests of evp_action, apart from it so that its proofs are made once.
#![tactic(auto)]

#[cfg(test)]
mod tests;
#[cfg(test)]
mod tests_transform;
