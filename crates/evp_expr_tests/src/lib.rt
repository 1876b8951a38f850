//! Tests of evp_expr, apart from it so that its proofs are made once.
#![tactic(auto)]

#[cfg(test)]
mod tests;
