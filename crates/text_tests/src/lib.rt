//! Tests of what stands below the readers, by its public calls: characters, lines, labels and entities, the recognisers of constructs, what a paragraph's lines
//! give, the pairing of delimiter runs, and sequences in chunks.
#![tactic(auto)]

#[cfg(test)]
mod characters_and_lines;
#[cfg(test)]
mod chunks;
#[cfg(test)]
mod delimiter_runs;
#[cfg(test)]
mod leaves;
#[cfg(test)]
mod recognisers;
