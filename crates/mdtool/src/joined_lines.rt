//! Lines that are held one behind the other.

ghost use Rattle.std.specs.Prelude.{◌≡◌, ◌++◌, ◌∷◌, [], length, map, string_bytes, IfOk, OnOk};
ghost use Rattle.std.specs.Str.Lossy.{utf8_lossy};
ghost use Rattle.mdtool.specs.LineLengths.{AreLengths, cut};

use std::alloc::{AllocError, Global};
use std::marker::Model;

/// Lines of bytes as they are read, an LF behind each: they take memory as a text does, and not line by line.
#[derive(Drop)]
pub struct ByteLines {
    bytes: Vec<u8>,
    /// How many bytes each line has.
    lens: Vec<usize>,
}

impl Model for ByteLines {
    ghost use Rattle.std.specs.Prelude.{ℕ, List};
    ghost use Rattle.mdtool.specs.LineLengths.{AreLengths, cut};

    ghost Value = { List (List ℕ) };

    ghost view = { λ l. cut l.lens.items l.bytes.items };

    ghost invariant = { λ l. AreLengths l.lens.items l.bytes.items };
}

impl ByteLines {
    /// No line.
    pub fn new(alloc: Global) -> ByteLines
        ensures { result ≡ [] }
    {
        ByteLines {
            bytes: Vec::new(alloc),
            lens: Vec::new(alloc),
        }
    }

    /// How many lines there are.
    pub fn len(&self) -> usize
        ensures { result ≡ length self.now }
    {
        self.lens.len()
    }

    /// Adds a line.
    pub fn push(&mut self, line: &[u8]) -> Result<(), AllocError>
        ensures { OnOk result (self.new ≡ self.old ++ line.now ∷ []) }
    {
        self.lens.reserve(1)?;
        self.bytes.reserve(line.len().saturating_add(1))?;
        self.bytes.extend_from_slice(line)?;
        self.bytes.push_reserved(b'\n');
        self.lens.push_reserved(line.len());
        Ok(())
    }

    /// Adds lines of these lengths, of which the bytes are made.
    pub fn append(&mut self, bytes: &[u8], lens: &[usize]) -> Result<(), AllocError>
        requires { AreLengths lens.now bytes.now }
        ensures { OnOk result (self.new ≡ self.old ++ cut lens.now bytes.now) }
    {
        self.bytes.reserve(bytes.len())?;
        self.lens.extend_from_slice(lens)?;
        // There is room.
        self.bytes.extend_from_slice(bytes).unwrap();
        Ok(())
    }

    /// The lines as texts: bytes that are no UTF-8 are read as U+FFFD.
    pub fn into_texts(self, alloc: Global) -> Result<JoinedLines, AllocError>
        ensures { IfOk result (λ texts. texts ≡ map utf8_lossy self) }
    {
        let ByteLines { bytes, lens } = self;
        match String::from_utf8(bytes) {
            Ok(text) => Ok(JoinedLines { text, lens }),
            Err(fault) => lossy_texts(alloc, fault.as_bytes(), &lens),
        }
    }
}

/// The texts of lines of which one is no UTF-8.
fn lossy_texts(alloc: Global, bytes: &[u8], lens: &[usize]) -> Result<JoinedLines, AllocError>
    requires { AreLengths lens.now bytes.now }
    ensures { IfOk result (λ texts. texts ≡ map utf8_lossy (cut lens.now bytes.now)) }
{
    let mut texts = JoinedLines {
        text: String::new(alloc),
        lens: Vec::new(alloc),
    };
    let mut rest = bytes;
    for len in lens {
        texts.push(String::from_utf8_lossy(alloc, &rest[..*len])?)?;
        rest = &rest[*len + 1..];
    }
    Ok(texts)
}

/// Texts without their line ends, one behind the other with an LF behind each.
#[derive(Drop)]
pub struct JoinedLines {
    text: String,
    /// How many bytes each line has.
    lens: Vec<usize>,
}

impl Model for JoinedLines {
    ghost use Rattle.std.specs.Prelude.{ℕ, List, string_bytes};
    ghost use Rattle.mdtool.specs.LineLengths.{AreLengths, cut};

    ghost Value = { List (List ℕ) };

    ghost view = { λ l. cut l.lens.items (string_bytes l.text) };

    ghost invariant = { λ l. AreLengths l.lens.items (string_bytes l.text) };
}

impl JoinedLines {
    /// Adds a line.
    fn push(&mut self, line: String) -> Result<(), AllocError>
        ensures { OnOk result (self.new ≡ self.old ++ string_bytes line ∷ []) }
    {
        let len = line.as_str().len();
        let mut ended = line;
        ended.push_str("\n")?;
        self.lens.reserve(1)?;
        self.text.push_str(&ended)?;
        self.lens.push_reserved(len);
        Ok(())
    }

    /// The lines, lent.
    pub fn lent(&self, alloc: Global) -> Result<Vec<&str>, AllocError>
        ensures { IfOk result (λ lent. map (λ line. line.now) lent.items ≡ self.now) }
    {
        let mut lent = Vec::with_capacity(alloc, self.lens.len())?;
        let mut rest = self.text.as_str();
        for len in &self.lens {
            let (line, end) = rest.split_at(*len);
            lent.push(line)?;
            rest = &end[1..];
        }
        Ok(lent)
    }
}
