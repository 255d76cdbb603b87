//! What the words of a program may be, and what `--help` says of them.
ghost use Rattle.std.specs.Prelude.{◌≡◌, IfOk, codes, false};
ghost use Rattle.clap.specs.Words.{app_of, rule_of};
ghost use Rattle.mdwords.specs.ToolWords.{choice_rule, flag_rule, has_lines, lettered_rule, repeated_rule, tool_app, valued_rule, with_choices, with_done_anyway, with_replies, with_version};

use clap::{Arg, ArgAction, Command};
use std::alloc::{AllocError, Global};

/// What `--version` tells behind the program's name.
pub const VERSION: &str = "0.1.0";

const RENDER_ABOUT: &str =
    "Writes the HTML of a Markdown text (CommonMark 0.31.2 with GFM's tables, task items and strikethrough).";

const RENDER_EXAMPLE: &str = "Not there, of cmark-gfm's words:
  other formats (-t xml, commonmark, latex, man, plaintext, ..), other extensions (-e autolink, tagfilter, footnotes, ..),
  --footnotes, --smart, --sourcepos, --list-extensions,
  and more than one FILE

Example:
  mdrender --hardbreaks notes.md > notes.html";

const PREVIEW_ABOUT: &str =
    "Holds a Markdown text that is edited by lines, and answers each edit with the pieces of HTML that changed.
FILE is a script of edits, and no Markdown text: of that mdrender writes the HTML, and a pane or an editor shows it.";

const PREVIEW_EXAMPLE: &str = "A script has three commands:
  edit AT DEL ADD  at line AT (counted from 0) DEL lines go, and the ADD lines below the command come
  prelude ADD      the ADD lines below the command are the prelude: definitions that count below the text's own
  html             all of the HTML

Not there, of cmark-gfm's words:
  other formats (-t xml, commonmark, latex, man, plaintext, ..), other extensions (-e autolink, tagfilter, footnotes, ..),
  --footnotes, --smart, --sourcepos, --list-extensions,
  and more than one FILE

Example:
  printf 'edit 0 0 1\\n# Notes\\nhtml\\n' | mdpreview";

/// An option: its name, the name of its value where it has one, and what `--help` says of it.
struct Choice {
    name: &'static str,
    value: Option<&'static str>,
    help: &'static str,
}

/// The options of how HTML is written, of which names of entities are known, of how a text is read, and of what a stop says.
const OPTIONS: &[Choice] = &[
    Choice {
        name: "unsafe",
        value: None,
        help: "Write raw HTML and destinations of any scheme as they stand",
    },
    Choice {
        name: "hardbreaks",
        value: None,
        help: "Write each line break of a paragraph as <br />",
    },
    Choice {
        name: "nobreaks",
        value: None,
        help: "Write each line break of a paragraph as a space",
    },
    Choice {
        name: "github-pre-lang",
        value: None,
        help: "Write the language of a code block as <pre lang=\"..\">",
    },
    Choice {
        name: "full-info-string",
        value: None,
        help: "Write what stands behind the language as data-meta=\"..\"",
    },
    Choice {
        name: "table-prefer-style-attributes",
        value: None,
        help: "Write the alignment of a cell as style=\"text-align: ..\"",
    },
    Choice {
        name: "entities",
        value: Some("FILE"),
        help: "Read the names of entities from a JSON file, as HTML's entities.json is",
    },
    Choice {
        name: "html-entities",
        value: None,
        help: "Know all 2,125 names of HTML's entities, in place of 23",
    },
    Choice {
        name: "strikethrough-double-tilde",
        value: None,
        help: "Strike through between two tildes alone; one is text",
    },
    Choice {
        name: "prelude",
        value: Some("FILE"),
        help: "Read definitions from a file, which count where the text has none of its own",
    },
    Choice {
        name: "max-containers",
        value: Some("N"),
        help: "Let so many block quotes and list items lie in one another, 1 to 256; 64 if not given",
    },
    Choice {
        name: "max-spans",
        value: Some("N"),
        help: "Let so many spans (emphasis, links, ..) lie in one another, 1 to 256; 64 if not given",
    },
    Choice {
        name: "explain",
        value: None,
        help: "Say in a second line, in plain words, why the program stops",
    },
];

/// The option of what replies tell, which `mdpreview` has.
const REPLIES: &[Choice] = &[Choice {
    name: "lines",
    value: None,
    help: "Tell on which line each piece begins, and how far those behind it moved",
}];

/// Options of cmark-gfm that say what is done anyway; two more have a letter.
const DONE_ANYWAY: &[Choice] = &[
    Choice {
        name: "validate-utf8",
        value: None,
        help: "Read what is no UTF-8 as U+FFFD, as is done anyway",
    },
    Choice {
        name: "width",
        value: Some("N"),
        help: "Wrap no lines of the HTML, whatever the number, as is done anyway",
    },
];

/// What the words may be.
pub(crate) fn command<'a>(alloc: Global, program: &'a str) -> Result<Command<'a>, AllocError>
    ensures { IfOk result (λ command. app_of command ≡ tool_app program.entry.now) }
{
    let command = with_options(alloc, Command::new(alloc, program), OPTIONS)?;
    let command = with_replies(alloc, command, program)?;
    let command = with_done_anyway(alloc, command)?.arg(
        Arg::new(alloc, "file")
            .value_name("FILE")
            .help("Read this file in place of standard input"),
    )?;
    Ok(versioned(described(command, program)))
}

/// The command with these options behind its own. It stands by itself, so that what it takes of the stack is given back behind it.
#[inline(never)]
fn with_options<'a>(
    alloc: Global,
    command: Command<'a>,
    options: &[Choice],
) -> Result<Command<'a>, AllocError>
    ensures { IfOk result (λ all. app_of all ≡ with_choices options.now (app_of command.entry)) }
{
    let mut all = command;
    for choice in options {
        all = all.arg(option(alloc, choice))?;
    }
    Ok(all)
}

/// The command with the option of what replies tell, where its program has that.
fn with_replies<'a>(
    alloc: Global,
    command: Command<'a>,
    program: &str,
) -> Result<Command<'a>, AllocError>
    ensures { IfOk result (λ all. app_of all ≡ with_replies program.now (app_of command.entry)) }
{
    if has_lines(program) {
        with_options(alloc, command, REPLIES)
    } else {
        Ok(command)
    }
}

/// Whether a program of this name has that option.
fn has_lines(program: &str) -> bool
    ensures { result ≡ has_lines program.now }
{
    program == "mdpreview"
}

/// The options of cmark-gfm that say what is done anyway. It stands by itself too.
#[inline(never)]
fn with_done_anyway<'a>(alloc: Global, command: Command<'a>) -> Result<Command<'a>, AllocError>
    ensures { IfOk result (λ all. app_of all ≡ with_done_anyway (app_of command.entry)) }
{
    let lettered = command.arg(format(alloc))?.arg(extension(alloc))?;
    with_options(alloc, lettered, DONE_ANYWAY)
}

/// The option that names the format.
fn format<'a>(alloc: Global) -> Arg<'a>
    ensures rule { rule_of result ≡ lettered_rule 116 (valued_rule (codes "to")) }
    ensures local { result.global ≡ false }
{
    valued(alloc, "to", "FORMAT", "Write html, as is done anyway").short('t')
}

/// The option that names an extension, as often as it stands.
fn extension<'a>(alloc: Global) -> Arg<'a>
    ensures rule { rule_of result ≡ repeated_rule (lettered_rule 101 (valued_rule (codes "extension"))) }
    ensures local { result.global ≡ false }
{
    let help = "Read table, strikethrough or tasklist, as is done anyway; may stand several times";
    valued(alloc, "extension", "NAME", help)
        .short('e')
        .action(ArgAction::Append)
}

/// The command with the version that it tells.
fn versioned<'a>(command: Command<'a>) -> Command<'a>
    ensures { app_of result ≡ with_version (app_of command.entry) }
{
    command.version(VERSION)
}

fn option<'a>(alloc: Global, choice: &Choice) -> Arg<'a>
    ensures rule { rule_of result ≡ choice_rule choice.now }
    ensures local { result.global ≡ false }
{
    match choice.value {
        Some(value) => valued(alloc, choice.name, value, choice.help),
        None => flag(alloc, choice.name, choice.help),
    }
}

fn flag<'a>(alloc: Global, name: &'static str, help: &'static str) -> Arg<'a>
    ensures rule { rule_of result ≡ flag_rule name.entry.now }
    ensures local { result.global ≡ false }
{
    Arg::new(alloc, name)
        .long(name)
        .action(ArgAction::SetTrue)
        .help(help)
}

/// An option with a value.
fn valued<'a>(alloc: Global, name: &'static str, value: &'static str, help: &'static str) -> Arg<'a>
    ensures rule { rule_of result ≡ valued_rule name.entry.now }
    ensures local { result.global ≡ false }
{
    Arg::new(alloc, name)
        .long(name)
        .value_name(value)
        .help(help)
}

fn described<'a>(command: Command<'a>, program: &str) -> Command<'a>
    ensures { app_of result ≡ app_of command.entry }
{
    if program == "mdpreview" {
        command.about(PREVIEW_ABOUT).after_help(PREVIEW_EXAMPLE)
    } else {
        command.about(RENDER_ABOUT).after_help(RENDER_EXAMPLE)
    }
}
