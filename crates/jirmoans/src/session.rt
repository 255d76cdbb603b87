//! A preview, with what C was last told of it.
ghost use Rattle.std.specs.Prelude.{◌≡◌, ◌⊎◌, ◌∷◌, ◌++◌, [], IfOk, IfErr, length, string_bytes, Ok, Err};
ghost use Rattle.mdtext.specs.declared.entity_file.TableFault.TheVariants.{NoMemory as TableNoMemory};
ghost use Rattle.std.specs.Vec.{vec_ptr};
ghost use Rattle.jirmoans.specs.Sessions.{BeginsAt, Edits, Opens, SetsPrelude, ShowsHtml, ShowsPatch, ShowsPiece, table_of};

use crate::faults::Refusal;
use crate::settings::Settings;
use crate::shown::{Changes, Text};
use crate::texts::{lines_in, text_of};
use mdbatch::to_html;
use mdtext::{Entities, NoMemory, TableFault, Tally};
use mdview::{EditFault, Patch, Preview};
use std::alloc::Global;

/// A preview, the numbers of the pieces that its last change made again, and the text that was last shown.
#[derive(Drop)]
pub struct Session {
    pub(crate) alloc: Global,
    pub(crate) preview: Preview,
    pub(crate) again: Vec<usize>,
    pub(crate) text: Vec<u8>,
}

impl Session {
    /// The empty text. The entities are those of a JSON file, or the usual ones where it is empty.
    pub fn open(alloc: Global, settings: &Settings, entities: &[u8]) -> Result<Session, Refusal>
        ensures { Opens result settings.now entities.now }
    {
        let options = settings.options()?;
        let entities = match table_of(alloc, entities) {
            Ok(entities) => entities,
            Err(fault) => return Err(Refusal::Table(fault)),
        };
        Ok(Session {
            alloc,
            preview: Preview::new(
                alloc,
                entities.with_double_tilde(settings.double_tilde),
                options,
            ),
            again: Vec::new(alloc),
            text: Vec::new(alloc),
        })
    }

    /// Replaces `del` lines from line `at` by the lines of a text.
    pub fn edit(&mut self, at: usize, del: usize, text: &[u8]) -> Result<Changes, Refusal>
        ensures { Edits at del text.now self.old result self.new }
    {
        let text = text_of(text)?;
        let Ok(lines) = lines_in(self.alloc, text) else {
            return Err(Refusal::Edit(EditFault::NoMemory));
        };
        match self.preview.edit(at, del, &lines, &mut Tally::new()) {
            Ok(patch) => Ok(keep(patch, &mut self.again)),
            Err(fault) => Err(Refusal::Edit(fault)),
        }
    }

    /// Replaces the prelude by the lines of a text.
    pub fn set_prelude(&mut self, text: &[u8]) -> Result<Changes, Refusal>
        ensures { SetsPrelude text.now self.old result self.new }
    {
        let text = text_of(text)?;
        let Ok(lines) = lines_in(self.alloc, text) else {
            return Err(Refusal::Edit(EditFault::NoMemory));
        };
        match self.preview.set_prelude(&lines, &mut Tally::new()) {
            Ok(patch) => Ok(keep(patch, &mut self.again)),
            Err(fault) => Err(Refusal::Edit(fault)),
        }
    }

    /// The line at which a unit begins.
    pub fn first_line(&mut self, unit: usize) -> Result<usize, Refusal>
        ensures { BeginsAt unit self.old result self.new }
    {
        match self.preview.first_line(unit) {
            Some(line) => Ok(line),
            None => Err(Refusal::NoSuchUnit {
                units: self.preview.units(),
            }),
        }
    }

    /// The HTML of a unit.
    pub fn piece(&mut self, unit: usize) -> Result<Text, Refusal>
        ensures { ShowsPiece unit self.old result self.new }
    {
        let Some(piece) = self.preview.piece(unit) else {
            return Err(Refusal::NoSuchUnit {
                units: self.preview.units(),
            });
        };
        match hold(piece, &mut self.text) {
            Ok(text) => Ok(text),
            Err(_) => Err(Refusal::Edit(EditFault::NoMemory)),
        }
    }

    /// The HTML of a whole text, with the entities, the options and the prelude of the preview.
    pub fn html(&mut self, text: &[u8]) -> Result<Text, Refusal>
        ensures { ShowsHtml text.now self.old result self.new }
    {
        let text = text_of(text)?;
        let preview = &self.preview;
        let html = to_html(
            self.alloc,
            text,
            preview.entities(),
            preview.options(),
            preview.definitions(),
        );
        let html = match html {
            Ok(html) => html,
            Err(fault) => return Err(Refusal::Edit(fault)),
        };
        match hold_all(html, &mut self.text) {
            Ok(text) => Ok(text),
            Err(_) => Err(Refusal::Edit(EditFault::NoMemory)),
        }
    }
}

/// The entities of a JSON file, or the usual ones where it is empty.
fn table_of(alloc: Global, file: &[u8]) -> Result<Entities, TableFault>
    ensures ok { IfOk result (λ entities. table_of file.now ≡ Ok entities) }
    ensures err { IfErr result (λ fault. (fault ≡ TableNoMemory) ⊎ (table_of file.now ≡ Err fault)) }
{
    if !file.is_empty() {
        return Entities::from_json(alloc, file);
    }
    match Entities::builtin(alloc) {
        Ok(entities) => Ok(entities),
        Err(_) => Err(TableFault::NoMemory),
    }
}

/// What C is shown of a patch, whose numbers are held.
fn keep(patch: Patch, again: &mut Vec<usize>) -> Changes
    ensures { ShowsPatch patch result again.new }
{
    *again = patch.again;
    Changes {
        first: patch.first,
        removed: patch.removed,
        added: patch.added,
        again: again.as_ptr(),
        again_len: again.len(),
    }
}

/// Holds a text for C, with a NUL behind it.
fn hold(text: &str, held: &mut Vec<u8>) -> Result<Text, NoMemory>
    ensures held { IfOk result (λ shown. held.new.items ≡ text.now ++ 0 ∷ []) }
    ensures shown { IfOk result (λ shown. (shown.at ≡ vec_ptr held.new) × (shown.len ≡ length text.now)) }
{
    held.clear();
    held.reserve(text.len().saturating_add(1))?;
    held.extend_from_slice(text.as_bytes())?;
    held.push(0)?;
    Ok(Text {
        at: held.as_ptr(),
        len: text.len(),
    })
}

/// Holds a text for C as it lies, with a NUL behind it.
fn hold_all(text: String, held: &mut Vec<u8>) -> Result<Text, NoMemory>
    ensures held { IfOk result (λ shown. held.new.items ≡ string_bytes text ++ 0 ∷ []) }
    ensures left { IfErr result (λ fault. held.new ≡ held.old) }
    ensures shown { IfOk result (λ shown. (shown.at ≡ vec_ptr held.new) × (shown.len ≡ length (string_bytes text))) }
{
    let len = text.len();
    let mut bytes = text.into_bytes();
    bytes.push(0)?;
    let at = bytes.as_ptr();
    *held = bytes;
    Ok(Text { at, len })
}
