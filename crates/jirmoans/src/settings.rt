//! How a text is read and written, as C says it.
ghost use Rattle.std.specs.Prelude.{◌≡◌, IfOk, if◌then◌else◌, ◌==◌};
ghost use Rattle.htmlspec.specs.Limits.{HasLimits};
ghost use Rattle.jirmoans.specs.Settings.{breaks_of, limit_of, options_of};

use crate::faults::Refusal;
use mdview::{Breaks, Options};

/// How a text is read and its HTML written. All zero is the usual way.
#[repr(C)]
#[derive(Clone, Copy, Debug, Drop, PartialEq, Eq)]
pub struct Settings {
    /// Whether raw HTML and every destination are written as they are.
    pub unsafe_html: bool,
    /// What a soft line break is written as: 0 a line ending, 1 the tag of a hard one, 2 a space.
    pub breaks: u32,
    /// How many containers may lie in one another, 1 to 256; 0 stands for 64.
    pub max_containers: usize,
    /// How many spans may lie in one another, 1 to 256; 0 stands for 64.
    pub max_spans: usize,
    /// Whether the language of a code block is written as `<pre lang="x">`, in place of `<code class="language-x">`.
    pub pre_lang: bool,
    /// Whether the alignment of a cell is written as `style="text-align: center"`, in place of `align="center"`.
    pub align_style: bool,
    /// Whether what stands behind the language in a code block's info string is written behind it, as `data-meta="y z"`.
    pub full_info_string: bool,
    /// Whether one tilde alone is text, and two strike through.
    pub double_tilde: bool,
}

const DEFAULT_LIMIT: usize = 64;

const MAX_LIMIT: usize = 256;

impl Settings {
    /// The options that they stand for.
    pub fn options(&self) -> Result<Options, Refusal>
        ensures value { result ≡ options_of self.now }
        ensures limits { IfOk result HasLimits }
    {
        let Some(breaks) = breaks_of(self.breaks) else {
            return Err(Refusal::UnknownBreaks);
        };
        let max_containers = limit_of(self.max_containers);
        let max_spans = limit_of(self.max_spans);
        if max_containers > MAX_LIMIT || max_spans > MAX_LIMIT {
            return Err(Refusal::LimitTooLarge);
        }
        Ok(Options {
            unsafe_html: self.unsafe_html,
            breaks,
            pre_lang: self.pre_lang,
            full_info_string: self.full_info_string,
            align_style: self.align_style,
            max_containers,
            max_spans,
        })
    }
}

fn breaks_of(number: u32) -> Option<Breaks>
    ensures { result ≡ breaks_of number }
{
    if number == 0 {
        return Some(Breaks::Soft);
    }
    if number == 1 {
        return Some(Breaks::Hard);
    }
    if number == 2 {
        return Some(Breaks::Space);
    }
    None
}

fn limit_of(number: usize) -> usize
    ensures { result ≡ limit_of number }
{
    if number == 0 { DEFAULT_LIMIT } else { number }
}
