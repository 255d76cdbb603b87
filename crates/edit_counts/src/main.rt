//! `edit_counts`: how many lines and inline texts each edit of a script reads, a line for each command.
#![tactic(auto)]

ghost use Rattle.htmlspec.specs.Limits.{HasLimits};

use mdtool::{
    Halt, Words, WriteOut, ended, entities_of, prelude_of, serve_counts, text_end, text_of,
    words_of, words_refused,
};
use std::process::ExitCode;

fn main(rt: HostRuntime) -> ExitCode {
    match words_of(&rt, "edit_counts") {
        Ok(words) => ended(&rt, "edit_counts", &words, run(&rt, &words)),
        Err(stop) => words_refused(&rt, "edit_counts", &stop),
    }
}

fn run(rt: &HostRuntime, words: &Words) -> Result<(), Halt>
    requires { HasLimits words.now.options }
{
    let entities = entities_of(rt, words)?;
    let prelude = prelude_of(rt, words)?;
    let mut feed = text_of(rt, words)?;
    let mut out = WriteOut::new(rt.stdout());
    let end = serve_counts(
        rt.alloc(),
        &mut feed,
        &mut out,
        entities,
        words.options,
        &prelude,
    );
    text_end(end, &feed)
}
