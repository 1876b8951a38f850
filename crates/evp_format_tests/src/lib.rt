//! Tests of evp_format, apart from it so that its proofs are made once.
#![tactic(auto)]

#[cfg(test)]
mod tests;
