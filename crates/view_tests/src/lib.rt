//! Tests of a preview and of the batch way, by their public calls.
#![tactic(auto)]

#[cfg(test)]
mod batch;
#[cfg(test)]
mod calls;
#[cfg(test)]
mod edits;
#[cfg(test)]
mod long_texts;
#[cfg(test)]
mod previews;
#[cfg(test)]
mod reasons;
#[cfg(test)]
mod repeats;
#[cfg(test)]
mod steps;
