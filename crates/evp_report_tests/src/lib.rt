//! Tests of evp_report, apart from it so that its proofs are made once.
#![tactic(auto)]

#[cfg(test)]
mod tests;
