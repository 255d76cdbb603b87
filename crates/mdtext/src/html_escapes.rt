//! Text as HTML writes it.
ghost use Rattle.std.specs.Prelude.{◌≡◌, ◌++◌, true, OnOk, OnErr, string_bytes, string_len, take};
ghost use Rattle.mdtext.specs.ByteClass.{in_class};
ghost use Rattle.mdtext.specs.HtmlEscapes.{escaped_byte, escaped, text_specials};

use crate::NoMemory;
use crate::byte_class::Class;
use crate::plain_runs::split_at_special;

/// Appends the text with `&`, `<`, `>` and `"` as entity references: all of it, or nothing after `NoMemory`.
pub fn escape_text(text: &str, out: &mut String) -> Result<(), NoMemory>
    ensures ok { OnOk result (string_bytes out.new ≡ string_bytes out.old ++ escaped text.now) }
    ensures err { OnErr result (string_bytes out.new ≡ string_bytes out.old) }
{
    let len = out.len();
    if let Err(fault) = append_escaped(text, out) {
        out.truncate(len);
        return Err(fault);
    }
    Ok(())
}

// A failure leaves some of the text appended.
fn append_escaped(text: &str, out: &mut String) -> Result<(), NoMemory>
    ensures ok { OnOk result (string_bytes out.new ≡ string_bytes out.old ++ escaped text.now) }
    ensures keeps { take (string_len out.old) (string_bytes out.new) ≡ string_bytes out.old }
{
    out.reserve(text.len())?;
    let specials = Class::of(b"&<>\"");
    let mut rest = text;
    loop {
        let (plain, special) = split_at_special(rest, &specials);
        out.push_str(plain)?;
        let Some((byte, after)) = special else {
            return Ok(());
        };
        out.push_str(reference(byte))?;
        rest = after;
    }
}

// The reference that stands for one of the four special bytes.
#[tactic(auto, unfolding(crate::specs::HtmlEscapes::escaped_byte))]
fn reference(byte: u8) -> &'static str
    requires { in_class text_specials byte ≡ true }
    ensures { result.now ≡ escaped_byte byte }
{
    match byte {
        b'&' => "&amp;",
        b'<' => "&lt;",
        b'>' => "&gt;",
        _ => "&quot;",
    }
}
