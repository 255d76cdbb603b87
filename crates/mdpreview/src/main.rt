//! `mdpreview`: answers a script of line edits with the pieces of HTML that changed.
#![tactic(auto)]

ghost use Rattle.htmlspec.specs.Limits.{HasLimits};

use mdtool::{
    Halt, Words, WriteOut, ended, entities_of, prelude_of, serve_to_the_end, text_end, text_of,
    words_of, words_refused,
};
use std::process::ExitCode;

fn main(rt: HostRuntime) -> ExitCode {
    match words_of(&rt, "mdpreview") {
        Ok(words) => ended(&rt, "mdpreview", &words, run(&rt, &words)),
        Err(stop) => words_refused(&rt, "mdpreview", &stop),
    }
}

/// It stands by itself, so that the words are read before it takes its part of the stack.
#[inline(never)]
fn run(rt: &HostRuntime, words: &Words) -> Result<(), Halt>
    requires { HasLimits words.now.options }
{
    let entities = entities_of(rt, words)?;
    let prelude = prelude_of(rt, words)?;
    let mut feed = text_of(rt, words)?;
    let mut out = WriteOut::new(rt.stdout());
    let end = serve_to_the_end(
        rt.alloc(),
        words.replies,
        &mut feed,
        &mut out,
        entities,
        words.options,
        &prelude,
    );
    text_end(end, &feed)
}
