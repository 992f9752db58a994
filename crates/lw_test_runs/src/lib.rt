//! Tests of the program as a whole, over files and streams in memory: as a table, what each of the
//! commands comes to where a call of a file or a stream fails; and a network that is drawn, mapped
//! and checked.
#![tactic(auto)]

#[cfg(test)]
mod drawn;
#[cfg(test)]
mod faults;
