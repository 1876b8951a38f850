//! Tests of evp_plan, apart from it so that its proofs are made once.
#![tactic(auto)]

#[cfg(test)]
mod plans;
#[cfg(test)]
mod windows;
