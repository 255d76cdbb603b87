//! Texts put together by chance.

use super::calls::Form;
use mdbatch::Breaks;
use mdtext::NoMemory;
use std::alloc::Global;

/// Texts that differ in few characters give other blocks and other inlines: so these are put together at random.
static TEXT_PARTS: &[&str] = &[
    "a",
    "foo",
    "b c",
    " ",
    "  ",
    "\t",
    "    ",
    "\n",
    "\n",
    "\n",
    "\n\n",
    "\r",
    "\r\n",
    "\u{0}",
    "\u{FEFF}",
    "\u{FFFD}",
    "é",
    "ẞ",
    "“x”",
    "日本",
    "\u{A0}",
    "\\",
    "\\\n",
    "  \n",
    "*",
    "**",
    "***",
    "_",
    "__",
    "~",
    "~~",
    "`",
    "``",
    "```",
    "\n```\n",
    "\n~~~ x\n",
    "\n````",
    "[",
    "]",
    "![",
    "](",
    ")",
    "(",
    "][",
    "[]",
    "[foo]",
    "[foo][]",
    "[bar][foo]",
    "[a](/b)",
    "![i *j*](/k \"t\")",
    "\n[foo]: /u\n",
    "\n[bar]: <v w> 't'\n",
    "\n[FOO]: /late\n",
    "\n[ẞ]: /s\n",
    "[SS]",
    "]:",
];

/// The other half of these parts: raw HTML, references, and what begins or ends blocks.
static MARK_PARTS: &[&str] = &[
    "<",
    ">",
    "<b>",
    "</b>",
    "<!--",
    "-->",
    "<?",
    "?>",
    "<![CDATA[",
    "]]>",
    "<http://x.y>",
    "<a@b.c>",
    "\n<div>\n",
    "\n</pre>\n",
    "\n<script>",
    "&",
    "&amp;",
    "&copy;",
    "&#0;",
    "&#x41;",
    "&nope;",
    "\"",
    "'",
    "!",
    "#",
    "\n# ",
    "\n## h ##\n",
    "\n> ",
    "\n>",
    "> ",
    "\n- ",
    "\n-\n",
    "- ",
    "\n* ",
    "\n+ ",
    "\n1. ",
    "\n2) ",
    "\n10. ",
    "\n  ",
    "\n    ",
    "\n- [ ] ",
    "\n- [x] ",
    "\n---\n",
    "\n===\n",
    "\n***\n",
    "|",
    "\\|",
    "\n| a | b |\n| - | :-: |\n",
    "\n| c |",
    "\n|-|\n",
    ":-",
    "=",
    "-",
    ".",
    "1",
    "x  ",
];

/// Units without a text, and definitions: what may stand before the first unit that waits for the label table.
static TEXTLESS: &[&str] = &[
    "***\n",
    "---\n",
    "```\ncode\n```\n",
    "~~~ x\n<b>\n\n&amp;\n~~~\n",
    "    indented\n\n",
    "<div>\n*a*\n\n",
    "<!-- a\n\n-->\n",
    "> ---\n\n",
    ">\n\n",
    "- ```\n  a\n  ```\n\n\n",
    "1. ***\n\n\n",
    "-\n\n\n",
    "\n\n",
    "[foo]: /early\n\n",
    "> [bar]: /quoted\n\n",
];

/// Texts whose spans or containers lie deep in one another, by what is repeated before and behind their middle.
static DEEP: &[(&str, &str)] = &[
    ("*a ", " b*"),
    ("**a ", " b**"),
    ("*a **b ", " c** d*"),
    ("~~a ", " b~~"),
    ("[a ", " b](/c)"),
    ("![", "](/c)"),
    (">", ""),
    ("> - ", ""),
    ("1. ", ""),
    ("- > ", ""),
];

/// Numbers that look as if drawn by chance; the same for the same seed.
#[derive(Drop)]
pub(crate) struct Draws {
    pub(crate) state: u64,
}

impl Draws {
    pub(crate) fn below(&mut self, count: usize) -> usize {
        self.state = self
            .state
            .wrapping_mul(6_364_136_223_846_793_005)
            .wrapping_add(1_442_695_040_888_963_407);
        (self.state >> 33) as usize % count.max(1)
    }

    pub(crate) fn form(&mut self) -> Form {
        let breaks = match self.below(3) {
            0 => Breaks::Soft,
            1 => Breaks::Hard,
            _ => Breaks::Space,
        };
        Form {
            unsafe_html: self.below(2) == 0,
            breaks,
        }
    }

    pub(crate) fn text(&mut self, alloc: Global) -> Result<String, NoMemory> {
        let mut text = String::new(alloc);
        self.push_text(&mut text)?;
        Ok(text)
    }

    fn push_text(&mut self, text: &mut String) -> Result<(), NoMemory> {
        self.push_beginning(text)?;
        for _ in 0..self.below(40).saturating_add(1) {
            self.push_part(text)?;
        }
        Ok(())
    }

    fn push_beginning(&mut self, text: &mut String) -> Result<(), NoMemory> {
        if self.below(12) == 0 {
            text.push_str("\u{FEFF}")?;
        }
        for _ in 0..self.below(8) {
            push_at(TEXTLESS, self.below(TEXTLESS.len()), text)?;
        }
        Ok(())
    }

    fn push_part(&mut self, text: &mut String) -> Result<(), NoMemory> {
        if self.below(60) == 0 {
            return self.push_deep(text);
        }
        let i = self.below(TEXT_PARTS.len().saturating_add(MARK_PARTS.len()));
        match i.checked_sub(TEXT_PARTS.len()) {
            None => push_at(TEXT_PARTS, i, text),
            Some(i) => push_at(MARK_PARTS, i, text),
        }
    }

    /// A text that lies in 60 to 69 others, or in twice as many.
    fn push_deep(&mut self, text: &mut String) -> Result<(), NoMemory> {
        let depth = self.below(10).saturating_add(60);
        let (before, behind) = deep_at(self.below(DEEP.len()));
        push_times(before, depth, text)?;
        text.push_str("x")?;
        push_times(behind, depth, text)
    }
}

/// What is repeated before and behind the middle of a text that lies deep.
fn deep_at(i: usize) -> (&'static str, &'static str) {
    match DEEP.get(i) {
        Some(&sides) => sides,
        None => ("*", "*"),
    }
}

fn push_at(parts: &[&str], i: usize, text: &mut String) -> Result<(), NoMemory> {
    match parts.get(i) {
        Some(part) => Ok(text.push_str(part)?),
        None => Ok(()),
    }
}

/// Appends this many times the same part.
pub(crate) fn push_times(part: &str, count: usize, text: &mut String) -> Result<(), NoMemory> {
    for _ in 0..count {
        text.push_str(part)?;
    }
    Ok(())
}
