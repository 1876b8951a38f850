//! Tests of evp_eval, apart from it so that its proofs are made once.
#![tactic(auto)]

#[cfg(test)]
mod sample_records;
#[cfg(test)]
mod tests;
