//! Texts of more and of fewer runs than a pairing keeps room for.

use super::are_matches;
use mdpair::{DelimiterChar, DelimiterRun, Match, Pairing, pair};
use std::alloc::{AllocError, Global};
use std::test::Fail;

static SIDES: [bool; 2] = [true, false];

/// A run that opens or closes. Tildes are of many lengths, each of which is a kind of its own.
fn run_at(delimiter: DelimiterChar, place: usize, opens: bool) -> DelimiterRun {
    let length = match delimiter {
        DelimiterChar::Tilde => place.saturating_add(1),
        _ => 1,
    };
    DelimiterRun {
        delimiter,
        length,
        can_open: opens,
        can_close: !opens,
    }
}

/// So many runs that open, and as many that close.
fn runs_of(
    alloc: Global,
    delimiter: DelimiterChar,
    count: usize,
) -> Result<Vec<DelimiterRun>, AllocError> {
    let mut runs = Vec::new(alloc);
    for &opens in &SIDES {
        for place in 0..count {
            runs.push(run_at(delimiter, place, opens))?;
        }
    }
    Ok(runs)
}

static DELIMITERS: [DelimiterChar; 2] = [DelimiterChar::Asterisk, DelimiterChar::Tilde];

static COUNTS: [usize; 6] = [63, 64, 65, 200, 66, 3];

/// What is paired after a room was given back is paired as by itself.
#[test]
fn a_pairing_pairs_as_the_function(rt: HostRuntime) -> Result<(), Fail> {
    let alloc = rt.alloc();
    let mut pairing = Pairing::new(alloc);
    for &delimiter in &DELIMITERS {
        for &count in &COUNTS {
            let runs = runs_of(alloc, delimiter, count)?;
            let wants = pair(alloc, &runs)?;
            for _ in 0..2 {
                pairing.pair(&runs)?;
                let is_same = are_matches(pairing.matches(), &wants);
                assert!(rt; is_same, "{count} runs");
            }
            pairing.let_go();
        }
    }
    Ok(())
}
