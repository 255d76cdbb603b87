//! The words that a program is started with.
ghost use Rattle.std.specs.Prelude.{◌≡◌, ◌≢◌, ◌≤◌, [], IfErr, IfNone, IfOk, IfSome, IsNone, IsSome, IsSomeAnd, OnOk, Some, codes, drop, length, map, option_map, string_bytes, true, false};
ghost use Rattle.std.specs.List.{list_all, prefix_len};
ghost use Rattle.clap.specs.Words.{first_value, found_of, kind_of};
ghost use Rattle.htmlspec.specs.Limits.{HasLimits};
ghost use Rattle.mdwords.specs.Numbers.{number};
ghost use Rattle.mdwords.specs.ToolWords.{IsBreaks, IsDoneAnyway, IsHtml, IsLimit, OptionsRead, WordsRead, is_extension, is_on, is_zero, program_of, replies_of, values_of};
ghost use Rattle.mdwords.specs.WordRefusals.{IsNoLimit, IsReadOf, MatchesDeclined, NotUnderstoodFor, RefusesMatches, RefusesWords, TellsKind, faults_of};

use crate::commands::command;
use crate::numbers::number;
use crate::reply_forms::ReplyForm;
use crate::word_faults::WordFault;
use clap::error::ErrorKind;
use clap::{ArgMatches, Error};
use htmlspec::{Breaks, Options};
use std::alloc::{AllocError, Global};

/// What a program's words say.
#[derive(Debug, Drop)]
pub struct Words {
    /// How HTML is written.
    pub options: Options,
    /// The name of the entity file.
    pub entities: Option<String>,
    /// Whether all of HTML's names of entities are known.
    pub html_entities: bool,
    /// Whether one tilde alone is text.
    pub double_tilde: bool,
    /// The name of the prelude's file.
    pub prelude: Option<String>,
    /// The name of the file to read.
    pub file: Option<String>,
    /// Whether a stop is explained in a second line.
    pub explains: bool,
    /// How edits are replied to.
    pub replies: ReplyForm,
}

/// Reads the words of `mdrender` or `mdpreview`, the program's name first.
///
/// `Help` has the text that `--help` asks for, and `Version` answers `--version`. `NotUnderstood` where a word is unknown, a
/// value is missing, an option is given twice that may stand once, a limit is no whole number from 1 to 256, a
/// width is no number of 1 to 9 digits, both `--hardbreaks` and `--nobreaks` or both `--entities` and
/// `--html-entities` are given, or another format or extension than what is done anyway. `NoMemory` where a growth was refused.
pub fn read_words<'a>(alloc: Global, words: &'a [&'a str]) -> Result<Words, WordFault>
    ensures read { IfOk result (WordsRead (map (λ word. word.now) words.entry.now)) }
    ensures limits { IfOk result (λ words. HasLimits words.options) }
    ensures taken { IfOk result (λ _. faults_of (map (λ word. word.now) words.entry.now) ≡ []) }
    ensures refused { IfErr result (RefusesWords (map (λ word. word.now) words.entry.now)) }
{
    let command = command(alloc, program_of(words))?;
    match command.try_get_matches_from(words) {
        Ok(matches) => read_matches(alloc, &matches),
        Err(error) => Err(fault_of(alloc, &error)),
    }
}

/// What clap's matches of the words say; refused where they ask for what is not done.
fn read_matches(alloc: Global, matches: &ArgMatches<'_>) -> Result<Words, WordFault>
    ensures read { IfOk result (IsReadOf matches.now) }
    ensures limits { IfOk result (λ words. HasLimits words.options) }
    ensures refused { IfErr result (RefusesMatches matches.now) }
{
    let options = options_of(matches)?;
    require_done_anyway(matches)?;
    let html_entities = html_entities_of(matches)?;
    let entities = copied(alloc, matches.get_str("entities"))?;
    let prelude = copied(alloc, matches.get_str("prelude"))?;
    let file = copied(alloc, matches.get_str("file"))?;
    Ok(Words {
        options,
        entities,
        html_entities,
        double_tilde: is_on(matches, "strikethrough-double-tilde"),
        prelude,
        file,
        explains: is_on(matches, "explain"),
        replies: replies_of(matches),
    })
}

/// The program's name, which is the first word.
fn program_of<'a>(words: &'a [&'a str]) -> &'a str
    ensures { result.now ≡ program_of (map (λ word. word.now) words.entry.now) }
{
    match words.first() {
        Some(program) => program,
        None => "mdrender",
    }
}

/// How the text is read and written; the two options of line breaks exclude each other.
fn options_of(matches: &ArgMatches<'_>) -> Result<Options, WordFault>
    ensures read { IfOk result (OptionsRead matches.now) }
    ensures limits { IfOk result HasLimits }
    ensures refused { IfErr result (NotUnderstoodFor (MatchesDeclined matches.now)) }
{
    let unsafe_html = is_on(matches, "unsafe");
    let breaks = breaks_of(is_on(matches, "hardbreaks"), is_on(matches, "nobreaks"))?;
    let pre_lang = is_on(matches, "github-pre-lang");
    let full_info_string = is_on(matches, "full-info-string");
    let align_style = is_on(matches, "table-prefer-style-attributes");
    let max_containers = limit_of(matches.get_str("max-containers"))?;
    let max_spans = limit_of(matches.get_str("max-spans"))?;
    Ok(Options {
        unsafe_html,
        breaks,
        pre_lang,
        full_info_string,
        align_style,
        max_containers,
        max_spans,
    })
}

/// Whether all of HTML's names are known, which a file of names excludes.
fn html_entities_of(matches: &ArgMatches<'_>) -> Result<bool, WordFault>
    ensures read { IfOk result (IsHtml (first_value (found_of matches.now) (codes "entities")) (is_on matches.now (codes "html-entities"))) }
    ensures refused { IfErr result (NotUnderstoodFor (MatchesDeclined matches.now)) }
{
    html_of(matches.get_str("entities"), is_on(matches, "html-entities"))
}

fn html_of(file: Option<&str>, asked: bool) -> Result<bool, WordFault>
    ensures read { IfOk result (IsHtml (option_map (λ name. name.now) file.entry) asked) }
    ensures refused { IfErr result (NotUnderstoodFor (IsSome (option_map (λ name. name.now) file.entry) × (asked ≡ true))) }
{
    match file {
        None => Ok(asked),
        Some(_) if asked => Err(WordFault::NotUnderstood),
        Some(_) => Ok(false),
    }
}

/// Whether an option without a value was given.
fn is_on(matches: &ArgMatches<'_>, name: &str) -> bool
    ensures { result ≡ is_on matches.now name.now }
{
    match matches.get_str(name) {
        Some(value) => value == "true",
        None => false,
    }
}

/// What replies tell.
fn replies_of(matches: &ArgMatches<'_>) -> ReplyForm
    ensures { result ≡ replies_of matches.now }
{
    if is_on(matches, "lines") {
        ReplyForm::WithLines
    } else {
        ReplyForm::Plain
    }
}

/// Refuses options of cmark-gfm that ask for what is not done anyway.
fn require_done_anyway(matches: &ArgMatches<'_>) -> Result<(), WordFault>
    ensures done { OnOk result (IsDoneAnyway matches.now) }
    ensures refused { IfErr result (NotUnderstoodFor (MatchesDeclined matches.now)) }
{
    require_html(matches.get_str("to"))?;
    require_width(matches.get_str("width"))?;
    match matches.get_strs("extension") {
        Some(names) => require_extensions(names),
        None => Ok(()),
    }
}

fn require_html(format: Option<&str>) -> Result<(), WordFault>
    ensures done { OnOk result (IfSome (option_map (λ name. name.now) format.entry) (λ name. name ≡ codes "html")) }
    ensures refused { IfErr result (NotUnderstoodFor (IsSomeAnd (option_map (λ name. name.now) format.entry) (λ name. name ≢ codes "html"))) }
{
    match format {
        Some(name) if name != "html" => Err(WordFault::NotUnderstood),
        _ => Ok(()),
    }
}

fn require_width(word: Option<&str>) -> Result<(), WordFault>
    ensures done { OnOk result (IfSome (option_map (λ word. word.now) word.entry) (λ word. IsSome (number word))) }
    ensures refused { IfErr result (NotUnderstoodFor (IsSomeAnd (option_map (λ word. word.now) word.entry) (λ word. IsNone (number word)))) }
{
    match word {
        Some(word) if number(word.as_bytes()).is_none() => Err(WordFault::NotUnderstood),
        _ => Ok(()),
    }
}

/// Refuses names among which one is of no extension that is always on.
fn require_extensions(names: &[&str]) -> Result<(), WordFault>
    ensures done { OnOk result (list_all is_extension (map (λ name. name.now) names.now) ≡ true) }
    ensures refused { IfErr result (NotUnderstoodFor (list_all is_extension (map (λ name. name.now) names.now) ≡ false)) }
{
    for name in names {
        if !is_extension(name) {
            return Err(WordFault::NotUnderstood);
        }
    }
    Ok(())
}

fn is_extension(name: &str) -> bool
    ensures { result ≡ is_extension name.now }
{
    name == "table" || name == "strikethrough" || name == "tasklist"
}

const DEFAULT_LIMIT: usize = 64;

const MAX_LIMIT: usize = 256;

/// The limit that an option's value is, a whole number from 1 to 256; the usual one where the option is not given.
fn limit_of(word: Option<&str>) -> Result<usize, WordFault>
    ensures some { IfOk result (λ limit. 1 ≤ limit) }
    ensures few { IfOk result (λ limit. limit ≤ 256) }
    ensures said { IfOk result (IsLimit (option_map (λ word. word.now) word.entry)) }
    ensures refused { IfErr result (NotUnderstoodFor (IsSomeAnd (option_map (λ word. word.now) word.entry) IsNoLimit)) }
{
    match word {
        None => Ok(DEFAULT_LIMIT),
        Some(word) => match limit(word.as_bytes()) {
            Some(limit) => Ok(limit),
            None => Err(WordFault::NotUnderstood),
        },
    }
}

/// The number of a word of digits, where it is 1 to 256. Zeros may stand before it.
fn limit(word: &[u8]) -> Option<usize>
    ensures some { IfSome result (λ limit. 1 ≤ limit) }
    ensures few { IfSome result (λ limit. limit ≤ 256) }
    ensures said { IfSome result (λ limit. number (drop (prefix_len is_zero word.now) word.now) ≡ Some limit) }
    ensures none { IfNone result (IsNoLimit word.now) }
{
    let value = number(&word[zeros(word)..])?;
    if value == 0 || value > MAX_LIMIT {
        return None;
    }
    Some(value)
}

/// How many zeros stand at the front of a word.
fn zeros(word: &[u8]) -> usize
    ensures zeros { result ≡ prefix_len is_zero word.now }
    ensures within { result ≤ length word.now }
{
    word.iter().take_while(|byte| **byte == b'0').count()
}

fn breaks_of(hard: bool, none: bool) -> Result<Breaks, WordFault>
    ensures read { IfOk result (IsBreaks hard none) }
    ensures refused { IfErr result (NotUnderstoodFor ((hard ≡ true) × (none ≡ true))) }
{
    if hard && none {
        return Err(WordFault::NotUnderstood);
    }
    if hard {
        return Ok(Breaks::Hard);
    }
    if none {
        return Ok(Breaks::Space);
    }
    Ok(Breaks::Soft)
}

fn copied(alloc: Global, text: Option<&str>) -> Result<Option<String>, AllocError>
    ensures { IfOk result (λ copy. option_map string_bytes copy ≡ option_map (λ text. text.now) text.entry) }
{
    match text {
        Some(text) => Ok(Some(String::from_str(alloc, text)?)),
        None => Ok(None),
    }
}

fn fault_of(alloc: Global, error: &Error) -> WordFault
    ensures { TellsKind (kind_of error.now) result }
{
    match error.kind() {
        ErrorKind::DisplayHelp => match format!(in alloc; "{error}") {
            Ok(text) => WordFault::Help(text),
            Err(_) => WordFault::NoMemory,
        },
        ErrorKind::DisplayVersion => WordFault::Version,
        ErrorKind::OutOfMemory => WordFault::NoMemory,
        _ => WordFault::NotUnderstood,
    }
}
