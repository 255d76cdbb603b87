//! Lists that are made from lists like them: the same bytes and ends as when they are made anew, and as much taken over as is the same.

ghost use Rattle.std.specs.Prelude.{◌≡◌, ◌≤◌, ◌-◌, [], IfOk, false, take, drop, length, string_bytes};
ghost use Rattle.mdblock.specs.BlockView.{blocks_view};
ghost use Rattle.mdblock.specs.Positions.{BlocksIn};
ghost use Rattle.htmlspec.specs.BlockHtml.{texts_html, blocks_html};
ghost use Rattle.htmlspec.specs.Limits.{plain};
ghost use Rattle.htmlspec.specs.ListEnds.{unit_ends};

use super::calls::{blocks_of, found, readings};
use mdblock::{Block, Unit};
use mdhtml::{Like, Options, append_unit_ends, append_unit_like};
use mdinline::Parsed;
use std::alloc::Global;
use std::process::Abort;
use std::test::Fail;

/// HTML, and where the items of a list end in it.
#[derive(Drop)]
struct Written {
    html: String,
    ends: Vec<usize>,
}

/// Blocks that are written anew.
fn anew(alloc: Global, blocks: &[Block], texts: &[Parsed]) -> Result<Written, Fail>
    requires { BlocksIn (length texts.now) (blocks_view blocks.now) }
    ensures html { IfOk result (λ made. string_bytes made.html ≡ blocks_html plain (texts_html plain texts.now) false (blocks_view blocks.now) []) }
    ensures ends { IfOk result (λ made. made.ends.items ≡ unit_ends plain (texts_html plain texts.now) (blocks_view blocks.now)) }
{
    let mut html = String::new(alloc);
    let mut ends = Vec::new(alloc);
    append_unit_ends(blocks, texts, &Options::plain(), &mut html, &mut ends)?;
    Ok(Written { html, ends })
}

/// What was made is what is written anew. How many bytes were taken over, if any were looked for: for these room is made behind the list's tag, of 5 bytes, and
/// for 1,000 more.
fn check_made(
    rt: &impl Abort,
    alloc: Global,
    blocks: &[Block],
    texts: &[Parsed],
    html: &String,
    ends: &Vec<usize>,
) -> Result<Option<usize>, Fail>
    requires { BlocksIn (length texts.now) (blocks_view blocks.now) }
{
    let want = anew(alloc, blocks, texts)?;
    assert!(rt; *html == want.html);
    assert!(rt; *ends == want.ends);
    Ok(html.capacity().checked_sub(1_005))
}

/// Blocks are written the same way from others as anew. How many bytes are taken over, if any are looked for.
fn taken_from(
    rt: &impl Abort,
    alloc: Global,
    blocks: &[Block],
    texts: &[Parsed],
    like: &Like<'_>,
) -> Result<Option<usize>, Fail>
    requires within { BlocksIn (length texts.now) (blocks_view blocks.now) }
    requires old_within { BlocksIn (length like.now.texts.now) (blocks_view like.now.blocks.now) }
    requires old_html { like.now.html.now ≡ blocks_html plain (texts_html plain like.now.texts.now) false (blocks_view like.now.blocks.now) [] }
    requires old_ends { like.now.ends.now ≡ unit_ends plain (texts_html plain like.now.texts.now) (blocks_view like.now.blocks.now) }
    requires front_within { like.now.front ≤ length texts.now }
    requires front_within_old { like.now.front ≤ length like.now.texts.now }
    requires front { take like.now.front texts.now ≡ take like.now.front like.now.texts.now }
    requires behind_within { like.now.behind ≤ length texts.now }
    requires behind_within_old { like.now.behind ≤ length like.now.texts.now }
    requires behind { drop (length texts.now - like.now.behind) texts.now ≡ drop (length like.now.texts.now - like.now.behind) like.now.texts.now }
{
    let mut html = String::new(alloc);
    let mut ends = Vec::new(alloc);
    append_unit_like(blocks, texts, &Options::plain(), like, &mut html, &mut ends)?;
    check_made(rt, alloc, blocks, texts, &html, &ends)
}

/// The same, where the others are written first, and so many texts at the front and at the end are those of both.
fn taken_over(
    rt: &impl Abort,
    alloc: Global,
    blocks: &[Block],
    texts: &[Parsed],
    old: &[Block],
    old_texts: &[Parsed],
    front: usize,
    behind: usize,
) -> Result<Option<usize>, Fail>
    requires within { BlocksIn (length texts.now) (blocks_view blocks.now) }
    requires old_within { BlocksIn (length old_texts.now) (blocks_view old.now) }
    requires front_within { front ≤ length texts.now }
    requires front_within_old { front ≤ length old_texts.now }
    requires front { take front texts.now ≡ take front old_texts.now }
    requires behind_within { behind ≤ length texts.now }
    requires behind_within_old { behind ≤ length old_texts.now }
    requires behind { drop (length texts.now - behind) texts.now ≡ drop (length old_texts.now - behind) old_texts.now }
{
    let before = anew(alloc, old, old_texts)?;
    let like = Like {
        blocks: old,
        texts: old_texts,
        html: &before.html,
        ends: &before.ends,
        front,
        behind,
    };
    taken_from(rt, alloc, blocks, texts, &like)
}

/// The same of units, where these have so many texts.
fn check_units(
    rt: &impl Abort,
    alloc: Global,
    new: &Unit,
    texts: &[Parsed],
    old: &Unit,
    old_texts: &[Parsed],
    front: usize,
    behind: usize,
) -> Result<Option<usize>, Fail>
    requires front_within { front ≤ length texts.now }
    requires front_within_old { front ≤ length old_texts.now }
    requires front { take front texts.now ≡ take front old_texts.now }
    requires behind_within { behind ≤ length texts.now }
    requires behind_within_old { behind ≤ length old_texts.now }
    requires behind { drop (length texts.now - behind) texts.now ≡ drop (length old_texts.now - behind) old_texts.now }
{
    match (blocks_of(new, texts), blocks_of(old, old_texts)) {
        (Some(blocks), Some(others)) => {
            taken_over(rt, alloc, blocks, texts, others, old_texts, front, behind)
        }
        _ => Err(Fail::from("other texts")),
    }
}

/// How many texts of a unit at the front and at the end read as those of another.
#[derive(Clone, Copy)]
enum Same {
    /// So many each, where both have as many texts: those of the new one are taken for both.
    Both { front: usize, behind: usize },
    /// So many at the front, where the new one begins with the texts of the old one.
    Front(usize),
    /// So many at the end, where the new one ends with the texts of the old one.
    Behind(usize),
}

fn check_both(
    rt: &impl Abort,
    alloc: Global,
    new: &Unit,
    texts: &[Parsed],
    old: &Unit,
    front: usize,
    behind: usize,
) -> Result<Option<usize>, Fail> {
    if front > texts.len() || behind > texts.len() {
        return Err(Fail::from("few texts"));
    }
    check_units(rt, alloc, new, texts, old, texts, front, behind)
}

fn check_front(
    rt: &impl Abort,
    alloc: Global,
    new: &Unit,
    texts: &[Parsed],
    old: &Unit,
    front: usize,
) -> Result<Option<usize>, Fail> {
    let count = old.texts().len();
    if front > count || count > texts.len() {
        return Err(Fail::from("few texts"));
    }
    check_units(rt, alloc, new, texts, old, &texts[..count], front, 0)
}

fn check_behind(
    rt: &impl Abort,
    alloc: Global,
    new: &Unit,
    texts: &[Parsed],
    old: &Unit,
    behind: usize,
) -> Result<Option<usize>, Fail> {
    let count = old.texts().len();
    if behind > count || count > texts.len() {
        return Err(Fail::from("few texts"));
    }
    let ended = &texts[texts.len() - count..];
    check_units(rt, alloc, new, texts, old, ended, 0, behind)
}

fn check_found(
    rt: &impl Abort,
    alloc: Global,
    new: &Unit,
    old: &Unit,
    same: Same,
) -> Result<Option<usize>, Fail> {
    let texts = readings(alloc, new.texts())?;
    match same {
        Same::Both { front, behind } => check_both(rt, alloc, new, &texts, old, front, behind),
        Same::Front(front) => check_front(rt, alloc, new, &texts, old, front),
        Same::Behind(behind) => check_behind(rt, alloc, new, &texts, old, behind),
    }
}

/// The first unit of a text, made from that of another. How many bytes are taken over, if any are looked for.
fn check(
    rt: &impl Abort,
    alloc: Global,
    new: &str,
    old: &str,
    same: Same,
) -> Result<Option<usize>, Fail> {
    let new = found(alloc, new)?;
    let old = found(alloc, old)?;
    check_found(rt, alloc, new.unit(), old.unit(), same)
}

/// Lists with as many texts, each with one that it is made like.
static CHANGED: [(&str, &str); 14] = [
    ("- a\n- b\n- c", "- a\n- b\n- c"),
    ("- a\n- [ ] b\n- c", "- a\n- [x] b\n- c"),
    ("- a\n- # b\n- c", "- a\n- b\n- c"),
    ("- a\n\n- b\n\n- c", "- a\n\n- > b\n\n- c"),
    ("- a\n\n- b\n\n- c", "- a\n- b\n- c"),
    ("2. a\n3. b\n4. c", "2. a\n3. - b\n4. c"),
    ("1. a\n2. b\n3. c", "2. a\n3. b\n4. c"),
    ("- a\n- b\n- c", "> a\n> # b\n>\n> c"),
    ("- a\n- \n- b\n- c", "- a\n- b\n- c"),
    ("- a\n- b\n- c", "- a\n-     d\n- ***\n- b\n- c"),
    ("- a\n- - b\n  - c", "- a\n- + b\n  + c"),
    ("- |a|b|\n  |-|-|\n- c", "- |a|b|\n  |-|:-|\n- c"),
    ("- <a>\n\n  a\n- b\n- c", "- <b>\n\n  a\n- b\n- c"),
    (
        "- ```x\n  y\n  ```\n  a\n- b\n- c",
        "- ```x\n  z\n  ```\n  a\n- b\n- c",
    ),
];

#[test]
fn changed_items_are_written(rt: HostRuntime) -> Result<(), Fail> {
    for &(new, old) in &CHANGED {
        for front in 0..4 {
            let behind = 3 - front;
            check(&rt, rt.alloc(), new, old, Same::Both { front, behind })?;
        }
        let all = Same::Both {
            front: 3,
            behind: 3,
        };
        check(&rt, rt.alloc(), new, old, all)?;
    }
    Ok(())
}

/// Lists that go on behind others or begin before them, each with how many texts at the front or at the end are taken to be the same.
static LONGER: [(&str, &str, Same); 10] = [
    ("- a\n- b\n- c\n", "- a\n- b", Same::Front(2)),
    ("- a\n- b\n- c\n", "- a\n- b", Same::Front(1)),
    ("- a\n\n- b\n\n- c\n", "- a\n\n- b", Same::Front(2)),
    ("* a\n* b\n* c\n", "- a\n- b", Same::Front(2)),
    (
        "1. a\n\n   |b|\n   |-|\n   |c|\n2. d",
        "1. a\n\n   |b|\n   |-|\n   |c|",
        Same::Front(3),
    ),
    ("- c\n- a\n- b\n", "- a\n- b", Same::Behind(2)),
    ("- c\n- a\n- b\n", "- a\n- b", Same::Behind(1)),
    ("- c\n  - d\n- a\n- > b\n", "- a\n- > b", Same::Behind(2)),
    ("1. c\n2. a\n3. b\n", "2. a\n3. b", Same::Behind(2)),
    (
        "- d\n\n- |a|\n  |-|\n  |b|\n  |c|",
        "- |a|\n  |-|\n  |b|\n  |c|\n\n- \n",
        Same::Behind(3),
    ),
];

#[test]
fn items_that_are_put_in_are_written(rt: HostRuntime) -> Result<(), Fail> {
    for &(new, old, same) in &LONGER {
        check(&rt, rt.alloc(), new, old, same)?;
    }
    Ok(())
}

/// Lists, how many of their texts are taken to be the same, and how many bytes of the old list are taken over. Of a paragraph of N bytes these are N and 10, the
/// tags and a line ending; of the table with one row 106.
static TAKEN_OVER: [(&str, &str, Same, usize); 8] = [
    (
        "- a\n- bb\n- xyz\n- ccccc\n- d",
        "- a\n- bb\n- xyz\n- ccccc\n- d",
        Same::Both {
            front: 2,
            behind: 2,
        },
        49,
    ),
    (
        "- a\n- bb\n- xyz\n- ccccc\n- ddd",
        "- a\n- bb\n- xyz\n- ccccc\n- ddd",
        Same::Both {
            front: 1,
            behind: 1,
        },
        24,
    ),
    (
        "- a\n- bb\n- ccccc\n- d",
        "- a\n- bb\n- ccccc\n- d",
        Same::Both {
            front: 2,
            behind: 1,
        },
        34,
    ),
    (
        "- a\n- # bb\n- [ ] ccccc\n- ddd",
        "- a\n- bb\n- ccccc\n- ddd",
        Same::Both {
            front: 4,
            behind: 4,
        },
        24,
    ),
    (
        "- |a|\n  |-|\n  |b|\n- x\n- cc",
        "- |a|\n  |-|\n  |b|\n- x\n- cc",
        Same::Both {
            front: 2,
            behind: 1,
        },
        118,
    ),
    (
        "- |a|\n  |-|\n  |b|\n- x\n- cc",
        "- |a|\n  |-|\n  |b|\n- x\n- cc",
        Same::Both {
            front: 1,
            behind: 1,
        },
        12,
    ),
    ("- a\n- bb\n- c", "- a\n- bb", Same::Front(2), 23),
    ("- c\n- a\n- bb", "- a\n- bb", Same::Behind(2), 23),
];

#[test]
fn same_items_are_found(rt: HostRuntime) -> Result<(), Fail> {
    for &(new, old, same, bytes) in &TAKEN_OVER {
        let taken = check(&rt, rt.alloc(), new, old, same)?;
        assert!(rt; taken == Some(bytes), "{taken:?}");
    }
    Ok(())
}
