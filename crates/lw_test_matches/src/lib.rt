//! Tests of classes, of matches, of labels and of the look at lists of matches, by the public calls
//! of their crates.
#![tactic(auto)]

#[cfg(test)]
mod classes;
#[cfg(test)]
mod counts;
#[cfg(test)]
mod drawing;
#[cfg(test)]
mod finding;
#[cfg(test)]
mod labels;
#[cfg(test)]
mod libraries;
#[cfg(test)]
mod looking;
#[cfg(test)]
mod plain;
#[cfg(test)]
mod settling;
#[cfg(test)]
mod sketch;
#[cfg(test)]
mod steep;
