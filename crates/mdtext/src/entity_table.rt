//! The names of entity references, and the texts that they stand for; beside them, how tildes are read.
ghost use Rattle.std.specs.Prelude.{◌≡◌, ◌≢◌, [], Ok, Err, IfErr, IfOk, map, option_map};
ghost use Rattle.mdtext.specs.EntityFile.{file_table};
ghost use Rattle.mdtext.specs.EntityTable.{entity_text, put_all, builtin_table, usual_table};

use crate::NoMemory;
use crate::entity_file::TableFault;
use crate::entity_reading::read_table;
use crate::html_names::HTML_NAMES;
use crate::named_texts::NamedTexts;
use std::alloc::Global;
use std::marker::Model;

/// The entities that are used where no other table is handed in.
const BUILTIN: [(&str, &str); 23] = [
    ("amp", "&"),
    ("lt", "<"),
    ("gt", ">"),
    ("quot", "\""),
    ("apos", "'"),
    ("nbsp", "\u{A0}"),
    ("copy", "\u{A9}"),
    ("reg", "\u{AE}"),
    ("trade", "\u{2122}"),
    ("AElig", "\u{C6}"),
    ("auml", "\u{E4}"),
    ("ouml", "\u{F6}"),
    ("frac34", "\u{BE}"),
    ("Dcaron", "\u{10E}"),
    ("ndash", "\u{2013}"),
    ("mdash", "\u{2014}"),
    ("lsquo", "\u{2018}"),
    ("rsquo", "\u{2019}"),
    ("ldquo", "\u{201C}"),
    ("rdquo", "\u{201D}"),
    ("hellip", "\u{2026}"),
    ("euro", "\u{20AC}"),
    ("times", "\u{D7}"),
];

/// A table of entity references (CommonMark 2.5): each name once, without `&` and `;`, with its text. Beside it stands whether
/// one tilde alone is text (see `with_double_tilde`).
#[derive(Debug, Drop)]
pub struct Entities {
    texts: NamedTexts,
    double_tilde: bool,
}

impl Model for Entities {
    ghost use Rattle.mdtext.specs.EntityTable.{EntityTable};

    ghost Value = { EntityTable };

    ghost view = { λ entities. record { names = entities.texts; double_tilde = entities.double_tilde } };
}

impl Entities {
    /// The names `amp`, `lt`, `gt`, `quot`, `apos`, `nbsp`, `copy`, `reg`, `trade`, `AElig`, `auml`, `ouml`, `frac34`,
    /// `Dcaron`, `ndash`, `mdash`, `lsquo`, `rsquo`, `ldquo`, `rdquo`, `hellip`, `euro` and `times`, with HTML's characters. Refused for want
    /// of memory alone.
    pub fn builtin(alloc: Global) -> Result<Entities, NoMemory>
        ensures { IfOk result (λ entities. entities ≡ builtin_table) }
    {
        Entities::of(alloc, &BUILTIN)
    }

    /// The entities of a JSON object: `&`, letters or digits and `;` as the names of its members, each an object with a
    /// text `characters`, as in the file of HTML's names. Members whose names don't end with `;` are ignored.
    ///
    /// `NotJson` where the bytes are no JSON or their value is no object, `BadEntry` where another member is not so; `NoMemory` at any point.
    pub fn from_json(alloc: Global, bytes: &[u8]) -> Result<Entities, TableFault>
        ensures ok { IfOk result (λ entities. file_table bytes.now ≡ Ok entities) }
        ensures err { IfErr result (λ fault. fault ≢ TableFault.NoMemory → file_table bytes.now ≡ Err fault) }
    {
        match simdutf8::compat::from_utf8(bytes) {
            Ok(text) => Ok(usual(read_table(alloc, text)?)),
            Err(_) => Err(TableFault::NotJson),
        }
    }

    /// HTML's 2,125 names that end with `;`, as `from_json` reads them of HTML's file (CommonMark 2.5). `NoMemory` where a growth is refused. The clauses
    /// leave another fault open, if the file had one; a test reads it whole.
    pub fn html(alloc: Global) -> Result<Entities, TableFault>
        ensures ok { IfOk result (λ entities. file_table HTML_NAMES.now ≡ Ok entities) }
        ensures err { IfErr result (λ fault. fault ≢ TableFault.NoMemory → file_table HTML_NAMES.now ≡ Err fault) }
    {
        Ok(usual(read_table(alloc, HTML_NAMES)?))
    }

    fn of(alloc: Global, pairs: &[(&str, &str)]) -> Result<Entities, NoMemory>
        ensures { IfOk result (λ entities. entities ≡ usual_table (put_all (map (λ p. (p.0.now, p.1.now)) pairs.now) [])) }
    {
        let mut texts = NamedTexts::with_room(alloc, pairs.len())?;
        for (name, text) in pairs {
            texts.put(name, text)?;
        }
        texts.fit();
        Ok(usual(texts))
    }

    /// These names. With `double_tilde` one tilde alone is text, and two strike through, as with `--strikethrough-double-tilde`
    /// of `cmark-gfm`; without it one strikes through too, which is the usual way (GFM Strikethrough (extension)).
    pub fn with_double_tilde(self, double_tilde: bool) -> Entities
        ensures { result ≡ record self { double_tilde = double_tilde } }
    {
        Entities {
            texts: self.texts,
            double_tilde,
        }
    }

    /// Whether one tilde alone is text.
    pub fn double_tilde(&self) -> bool
        ensures { result ≡ self.now.double_tilde }
    {
        self.double_tilde
    }

    /// The text that a name, without `&` and `;`, stands for. It takes no memory.
    pub fn get(&self, name: &str) -> Option<&str>
        ensures { option_map (λ text. text.now) result ≡ entity_text self.now name.now }
    {
        self.texts.get(name)
    }
}

/// The names with these texts, with tildes as they are usually read.
fn usual(texts: NamedTexts) -> Entities
    ensures { result ≡ usual_table texts }
{
    Entities {
        texts,
        double_tilde: false,
    }
}
