//! Tests of the readers of blocks and of inline texts, of the joining of lists, and of the HTML of units, by their public calls.
#![tactic(auto)]

#[cfg(test)]
mod blocks;
#[cfg(test)]
mod html;
#[cfg(test)]
mod inlines;
