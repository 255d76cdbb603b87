//! `mdrender`: writes the HTML of a Markdown text.
#![tactic(auto)]

ghost use Rattle.htmlspec.specs.Limits.{HasLimits};

use mdtool::{
    Halt, Words, WriteOut, convert, ended, entities_of, prelude_of, text_end, text_of, words_of,
    words_refused,
};
use std::process::ExitCode;

fn main(rt: HostRuntime) -> ExitCode {
    match words_of(&rt, "mdrender") {
        Ok(words) => ended(&rt, "mdrender", &words, run(&rt, &words)),
        Err(stop) => words_refused(&rt, "mdrender", &stop),
    }
}

/// It stands by itself, so that the words are read before it takes its part of the stack.
#[inline(never)]
fn run(rt: &HostRuntime, words: &Words) -> Result<(), Halt>
    requires { HasLimits words.now.options }
{
    let entities = entities_of(rt, words)?;
    let prelude = prelude_of(rt, words)?;
    let mut feed = text_of(rt, words)?;
    // The HTML is handed over whole, so there is nothing to gather.
    let mut out = WriteOut::new(rt.stdout());
    let end = convert(
        rt.alloc(),
        &mut feed,
        &mut out,
        entities,
        words.options,
        &prelude,
    );
    text_end(end, &feed)
}
