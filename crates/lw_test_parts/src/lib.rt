//! Tests of the layers' public calls, as tables.
#![tactic(auto)]

#[cfg(test)]
mod decimals;
#[cfg(test)]
mod lines;
#[cfg(test)]
mod pools;
