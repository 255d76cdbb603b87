//! The HTML of units, written while their texts are read: no tree of a text is made.

ghost use Rattle.std.specs.Prelude.{◌≡◌, ◌++◌, ◌∷◌, [], ◌≤◌, IfOk, IsErrOf, OnOk, false, true, length, map, string_bytes};
ghost use Rattle.std.specs.List.{list_any};
ghost use Rattle.mdinline.specs.declared.faults.InlineFault.TheVariants.{TooDeep};
ghost use Rattle.htmlspec.specs.BlockHtml.{ends_line};
ghost use Rattle.htmlspec.specs.Limits.{HasLimits};

use crate::inline_writer::{InlineWriter, OpenSpan};
use crate::pieces::append_blocks;
use crate::unit_texts::{HeldTexts, UnitTexts};
use htmlspec::Options;
use mdblock::Unit;
use mdinline::{InlineFault, Labels, TextReader, Unasked};
use mdtext::{Entities, NoMemory};
use std::alloc::Global;
use std::mem;

/// Writes the HTML of units with no tree of their texts, and keeps from one unit to the next what it needs for them.
#[derive(Drop)]
pub struct UnitWriter<'a> {
    alloc: Global,
    options: Options,
    reader: TextReader<'a>,
    /// The HTML of the unit's texts.
    texts: Vec<String>,
    /// Room for the HTML of texts.
    spare: Vec<String>,
    /// Room for the spans that are open in a text.
    spans: Vec<OpenSpan>,
}

impl<'a> UnitWriter<'a> {
    ghost use Rattle.htmlspec.specs.WrittenUnits.{is_deep_text, is_deep_unit, read_html, written_unit};
    ghost use Rattle.mdhtml.specs.UnitWriters.{entities_of, options_of};

    /// A writer of units whose texts are read with these entities. Takes no memory.
    pub fn new(alloc: Global, entities: &'a Entities, options: &Options) -> UnitWriter<'a>
        requires { HasLimits options.now }
        ensures options { options_of result ≡ options.now }
        ensures entities { entities_of result ≡ entities.now }
    {
        UnitWriter {
            alloc,
            options: *options,
            reader: TextReader::new(alloc, entities),
            texts: Vec::new(alloc),
            spare: Vec::new(alloc),
            spans: Vec::new(alloc),
        }
    }

    /// Appends to a text that is empty or ends with LF the HTML of a unit whose texts are read under these labels, and leaves it so: each text as the
    /// definition reads it. `TooDeep` where in one of them more spans lie in one another than the options allow. After a fault a beginning of the unit may
    /// stand there.
    pub fn append_unit<L: Labels>(
        &mut self,
        unit: &Unit,
        labels: &'a L,
        out: &mut String,
    ) -> Result<(), InlineFault>
        requires { ends_line (string_bytes out.old) ≡ true }
        ensures html { OnOk result (string_bytes out.new
            ≡ string_bytes out.old ++ written_unit (options_of self.old) (entities_of self.old) (L.target labels.now) unit.now) }
        ensures ends_line { OnOk result (ends_line (string_bytes out.new) ≡ true) }
        ensures within { OnOk result (is_deep_unit (options_of self.old) (entities_of self.old) (L.target labels.now) unit.now ≡ false) }
        ensures too_deep { IsErrOf result TooDeep → is_deep_unit (options_of self.old) (entities_of self.old) (L.target labels.now) unit.now ≡ true }
        ensures options { options_of self.new ≡ options_of self.old }
        ensures entities { entities_of self.new ≡ entities_of self.old }
    {
        self.write_texts(unit.texts(), labels)?;
        let texts = UnitTexts {
            held: HeldTexts::Written(&self.texts),
            options: &self.options,
        };
        append_blocks(unit.blocks(), &texts, out)?;
        Ok(())
    }

    /// Reads the texts of a unit, and holds their HTML.
    fn write_texts<L: Labels>(&mut self, texts: &[String], labels: &'a L) -> Result<(), InlineFault>
        ensures texts { OnOk result (map string_bytes self.new.texts.items
            ≡ map (read_html (options_of self.old) (entities_of self.old) (L.target labels.now)) (map string_bytes texts.now)) }
        ensures within { OnOk result (list_any (is_deep_text (options_of self.old) (entities_of self.old) (L.target labels.now))
            (map string_bytes texts.now) ≡ false) }
        ensures too_deep { IsErrOf result TooDeep
            → list_any (is_deep_text (options_of self.old) (entities_of self.old) (L.target labels.now)) (map string_bytes texts.now) ≡ true }
        ensures options { options_of self.new ≡ options_of self.old }
        ensures entities { entities_of self.new ≡ entities_of self.old }
    {
        self.let_go()?;
        for text in texts {
            let html = self.text_html(text, labels)?;
            self.texts.push(html)?;
        }
        Ok(())
    }

    /// The texts of the unit before leave their room to those that come.
    fn let_go(&mut self) -> Result<(), NoMemory>
        ensures texts { OnOk result (self.new.texts.items ≡ []) }
        ensures options { options_of self.new ≡ options_of self.old }
        ensures entities { entities_of self.new ≡ entities_of self.old }
    {
        self.spare.append(&mut self.texts)?;
        Ok(())
    }

    fn text_html<L: Labels>(&mut self, text: &str, labels: &'a L) -> Result<String, InlineFault>
        ensures html { IfOk result (λ html. string_bytes html ≡ read_html (options_of self.old) (entities_of self.old) (L.target labels.now) text.now) }
        ensures within { OnOk result (is_deep_text (options_of self.old) (entities_of self.old) (L.target labels.now) text.now ≡ false) }
        ensures too_deep { IsErrOf result TooDeep → is_deep_text (options_of self.old) (entities_of self.old) (L.target labels.now) text.now ≡ true }
        ensures texts { self.new.texts ≡ self.old.texts }
        ensures options { options_of self.new ≡ options_of self.old }
        ensures entities { entities_of self.new ≡ entities_of self.old }
    {
        let room = match self.spare.pop() {
            Some(room) => room,
            None => String::with_capacity(self.alloc, text.len())?,
        };
        let spans = mem::replace(&mut self.spans, Vec::new(self.alloc));
        let writer = InlineWriter::begin_text(self.alloc, self.options, room, spans);
        let limit = self.options.max_spans;
        let written = self
            .reader
            .read_into(text, labels, &mut Unasked, writer, limit)?;
        let (html, spans) = written.into_parts();
        self.spans = spans;
        Ok(html)
    }
}
