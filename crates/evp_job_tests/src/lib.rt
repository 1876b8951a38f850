//! Tests of evp_job, apart from it so that its proofs are made once.
#![tactic(auto)]

#[cfg(test)]
mod documents;
#[cfg(test)]
mod fill_tests;
#[cfg(test)]
mod tests;
#[cfg(test)]
mod tests_defaults;
#[cfg(test)]
mod tests_limits;
#[cfg(test)]
mod tests_order;
#[cfg(test)]
mod tests_rounds;
#[cfg(test)]
mod tests_settings;
#[cfg(test)]
mod tests_stones;
