//! How texts are read and written in these tests.

use mdtool::{Breaks, Options};

/// The usual way: `Options::plain`, written out.
pub(crate) const SOFT: Options = Options {
    unsafe_html: false,
    breaks: Breaks::Soft,
    pre_lang: false,
    full_info_string: false,
    align_style: false,
    max_containers: 64,
    max_spans: 64,
};
