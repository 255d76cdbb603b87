//! Destinations as HTML writes them.
ghost use Rattle.std.specs.Prelude.{◌≡◌, ◌++◌, true, OnOk, OnErr, string_bytes, string_len, take};
ghost use Rattle.mdtext.specs.ByteClass.{in_class};
ghost use Rattle.mdtext.specs.EscapedUrl.{escaped_url, url_byte, url_specials};

use crate::NoMemory;
use crate::byte_class::Class;
use crate::plain_runs::split_at_special;
use percent_encoding::{AsciiSet, NON_ALPHANUMERIC, ascii_set, utf8_percent_encode};

/// The ASCII bytes that a destination has percent-encoded.
const ESCAPED: AsciiSet = ascii_set!(
    NON_ALPHANUMERIC
        .remove(b'-')
        .remove(b'_')
        .remove(b'.')
        .remove(b'+')
        .remove(b'!')
        .remove(b'*')
        .remove(b'\'')
        .remove(b'(')
        .remove(b')')
        .remove(b',')
        .remove(b'%')
        .remove(b'#')
        .remove(b'@')
        .remove(b'?')
        .remove(b'=')
        .remove(b';')
        .remove(b':')
        .remove(b'/')
        .remove(b'&')
        .remove(b'$')
        .remove(b'~')
);

/// Appends a destination as an attribute holds it: letters, digits and `-_.+!*(),%#@?=;:/$~` as they are, `&` as
/// `&amp;`, `'` as `&#x27;`, and each other byte percent-encoded. After `NoMemory` nothing is appended.
pub fn escape_url(text: &str, out: &mut String) -> Result<(), NoMemory>
    ensures ok { OnOk result (string_bytes out.new ≡ string_bytes out.old ++ escaped_url text.now) }
    ensures err { OnErr result (string_bytes out.new ≡ string_bytes out.old) }
{
    let len = out.len();
    if let Err(fault) = append_url(text, out) {
        out.truncate(len);
        return Err(fault);
    }
    Ok(())
}

// A failure leaves some of the destination appended.
fn append_url(text: &str, out: &mut String) -> Result<(), NoMemory>
    ensures ok { OnOk result (string_bytes out.new ≡ string_bytes out.old ++ escaped_url text.now) }
    ensures keeps { take (string_len out.old) (string_bytes out.new) ≡ string_bytes out.old }
{
    out.reserve(text.len())?;
    let specials = Class::of(b"&'");
    let mut rest = text;
    loop {
        let (plain, special) = split_at_special(rest, &specials);
        utf8_percent_encode(plain, ESCAPED).append_to(out)?;
        let Some((byte, after)) = special else {
            return Ok(());
        };
        out.push_str(url_reference(byte))?;
        rest = after;
    }
}

// The reference that stands for `&` or `'`.
#[tactic(auto, unfolding(crate::specs::EscapedUrl::url_byte))]
fn url_reference(byte: u8) -> &'static str
    requires { in_class url_specials byte ≡ true }
    ensures { result.now ≡ url_byte byte }
{
    if byte == b'&' { "&amp;" } else { "&#x27;" }
}
