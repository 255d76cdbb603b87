//! Delimiter runs that are paired by a plain search, which looks at all of them again for each match (CommonMark 6.2, rules 9 to 17).

ghost use Rattle.std.specs.Prelude.{◌<◌, IfSome, length};

use super::{are_matches, runs_of};
use mdpair::{DelimiterRun, Match, pair};
use std::alloc::{AllocError, Global};
use std::process::Abort;
use std::test::Fail;

/// What is left of the run at a place.
#[derive(Clone, Copy, Drop)]
struct Left {
    place: usize,
    count: usize,
    run: DelimiterRun,
}

/// Whether a length is a multiple of three.
fn is_multiple(length: usize) -> bool {
    length % 3 == 0
}

/// Whether the sum of the lengths keeps two runs from being paired (rules 9 and 10).
fn has_wrong_sum(opener: &DelimiterRun, closer: &DelimiterRun) -> bool {
    if !opener.can_close && !closer.can_open {
        return false;
    }
    if is_multiple(opener.length) && is_multiple(closer.length) {
        return false;
    }
    is_multiple(opener.length.saturating_add(closer.length))
}

fn fits(opener: &DelimiterRun, closer: &DelimiterRun) -> bool {
    opener.can_open
        && closer.can_close
        && opener.delimiter == closer.delimiter
        && !has_wrong_sum(opener, closer)
}

/// The leftmost closer that an opener before it fits, behind the nearest such opener.
fn first_fit(left: &[Left]) -> Option<(usize, usize)>
    ensures { IfSome result (λ fit. (fit.0 < fit.1) × (fit.1 < length left.now)) }
{
    for closer in 0..left.len() {
        for opener in (0..closer).rev() {
            if fits(&left[opener].run, &left[closer].run) {
                return Some((opener, closer));
            }
        }
    }
    None
}

/// What is left after a match of so many characters: the runs between the two are text.
fn after_match(
    alloc: Global,
    left: &[Left],
    opener: usize,
    closer: usize,
    width: usize,
) -> Result<Vec<Left>, AllocError> {
    let mut after = Vec::new(alloc);
    for (i, one) in left.iter().enumerate() {
        let mut one = *one;
        if i == opener || i == closer {
            one.count = one.count.saturating_sub(width);
        }
        let is_between = opener < i && i < closer;
        if one.count > 0 && !is_between {
            after.push(one)?;
        }
    }
    Ok(after)
}

fn search(alloc: Global, runs: &[DelimiterRun]) -> Result<Vec<Match>, AllocError> {
    let mut matches = Vec::new(alloc);
    let mut left = Vec::new(alloc);
    let mut characters = 0_usize;
    for (place, run) in runs.iter().enumerate() {
        let count = run.length;
        left.push(Left {
            place,
            count,
            run: *run,
        })?;
        characters = characters.saturating_add(count);
    }
    for _ in 0..characters {
        let Some((o, c)) = first_fit(&left) else {
            break;
        };
        let is_strong = left[o].count > 1 && left[c].count > 1;
        let width = if is_strong { 2 } else { 1 };
        matches.push(Match {
            opener: left[o].place,
            closer: left[c].place,
            width,
        })?;
        left = after_match(alloc, &left, o, c, width)?;
    }
    Ok(matches)
}

/// The character that the last of a number's digits of four kinds stands for.
fn character_of(number: usize) -> char {
    match number % 4 {
        0 => '*',
        1 => '_',
        2 => 'a',
        _ => ' ',
    }
}

/// The text of so many characters that a number stands for.
fn text_of(alloc: Global, number: usize, len: usize) -> Result<String, AllocError> {
    let mut text = String::new(alloc);
    let mut rest = number;
    for _ in 0..len {
        text.push(character_of(rest))?;
        rest /= 4;
    }
    Ok(text)
}

fn compare(rt: &impl Abort, alloc: Global, text: &str) -> Result<(), AllocError> {
    let runs = runs_of(alloc, text)?;
    let matches = pair(alloc, &runs)?;
    let wants = search(alloc, &runs)?;
    assert!(rt; are_matches(&matches, &wants), "in {text:?}");
    Ok(())
}

/// How many texts of four characters there are of no character, of one, and so on.
static TEXTS_OF_LENGTH: [usize; 9] = [1, 4, 16, 64, 256, 1024, 4096, 16384, 65536];

/// All texts of up to eight of the characters `*`, `_`, `a` and the space: 87,381.
#[test]
fn pairs_as_a_plain_search(rt: HostRuntime) -> Result<(), Fail> {
    let alloc = rt.alloc();
    for (len, count) in TEXTS_OF_LENGTH.iter().enumerate() {
        for number in 0..*count {
            let text = text_of(alloc, number, len)?;
            compare(&rt, alloc, &text)?;
        }
    }
    Ok(())
}
