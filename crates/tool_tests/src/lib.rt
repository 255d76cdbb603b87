//! Tests that go through several crates: the engines on worked scripts and over devices that fail at each call in turn, what faults say, and walks over trees.
#![tactic(auto)]

#[cfg(test)]
mod devices;
#[cfg(test)]
mod engines;
#[cfg(test)]
mod fault_words;
#[cfg(test)]
mod io_faults;
#[cfg(test)]
mod options;
#[cfg(test)]
mod runs;
#[cfg(test)]
mod walks;
