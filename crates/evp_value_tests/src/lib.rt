//! Tests of evp_value, apart from it so that its proofs are made once.
#![tactic(auto)]

#[cfg(test)]
mod conversions;
#[cfg(test)]
mod sample_formats;
#[cfg(test)]
mod tests;
