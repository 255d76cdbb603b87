//! Strikethrough by two tildes alone, as cmark-gfm 0.29.0.gfm.6 writes it with `--strikethrough-double-tilde`.

use crate::options::SOFT;
use crate::runs::{Engine, SOUND, run_beside};
use mdtext::Entities;
use std::test::Fail;

static TILDES: [(&str, &str); 14] = [
    ("~a~ ~~b~~", "<p>~a~ <del>b</del></p>\n"),
    (
        "~~Hi~~ Hello, ~there~ world!",
        "<p><del>Hi</del> Hello, ~there~ world!</p>\n",
    ),
    ("~a~~ ~~b~", "<p>~a~~ ~~b~</p>\n"),
    ("a ~~~b~~~", "<p>a ~~~b~~~</p>\n"),
    ("x ~~a~b~~ y", "<p>x <del>a~b</del> y</p>\n"),
    ("~a ~~b~ c~~", "<p>~a <del>b~ c</del></p>\n"),
    ("*~a*~", "<p><em>~a</em>~</p>\n"),
    ("*a ~b* ~~c ~d~~", "<p><em>a ~b</em> <del>c ~d</del></p>\n"),
    ("~~*a~~ ~b*~", "<p><del>*a</del> ~b*~</p>\n"),
    ("[~a~](/u) ~", "<p><a href=\"/u\">~a~</a> ~</p>\n"),
    ("![~a~](/u)", "<p><img src=\"/u\" alt=\"~a~\" /></p>\n"),
    ("[~a]\n\n[~a]: /u", "<p><a href=\"/u\">~a</a></p>\n"),
    ("a~  \nb~", "<p>a~<br />\nb~</p>\n"),
    ("~", "<p>~</p>\n"),
];

#[test]
fn strikes_through_between_two_tildes_alone(rt: HostRuntime) -> Result<(), Fail> {
    let alloc = rt.alloc();
    for (text, want) in &TILDES {
        let entities = Entities::builtin(alloc)?.with_double_tilde(true);
        let run = run_beside(
            alloc,
            Engine::Convert,
            entities,
            &[],
            text.as_bytes(),
            SOUND,
            SOFT,
        )?;
        assert!(rt; run.wrote(want), "{text}");
        assert!(rt; run.ended("Ok(())"), "{text}");
    }
    Ok(())
}
