//! The units of a whole text, each handed to what takes it as soon as it is found.
ghost use Rattle.std.specs.Prelude.{List, [], ◌≡◌, ◌<◌, ◌∷◌, ◌++◌, IfErr, IfOk, None, false, length, true};
ghost use Rattle.std.specs.Option.{option_map, option_to_list};
ghost use Rattle.std.specs.Str.{IsUtf8};
ghost use Rattle.mdtext.specs.Lines.{split_lines};
ghost use Rattle.blockspec.specs.UnitTree.{FoundUnit};
ghost use Rattle.mdblock.specs.FoundLists.{found_unit};
ghost use Rattle.mdsource.specs.declared.fault.EditFault.TheVariants.{NoMemory};
ghost use Rattle.mdbatch.specs.BatchHtml.{IsReadFault};
ghost use Rattle.mdbatch.specs.CleanText.{nested_in, units_in};

use crate::clean_text::CleanText;
use mdblock::{Found, Reader};
use mdsource::{EditFault, fault_in_line};
use mdtext::{Tally, split_line};

/// Takes the units of a text in order. After a fault, and where it needs no more, it is of no use.
pub(crate) trait UnitSink {
    ghost use Rattle.std.specs.Prelude.{◌≡◌, List, [], ◌∷◌, ◌++◌, IfErr, IfOk, false, true};
    ghost use Rattle.blockspec.specs.UnitTree.{FoundUnit};
    ghost use Rattle.mdblock.specs.FoundLists.{found_unit};
    ghost use Rattle.mdsource.specs.declared.fault.EditFault.TheVariants.{NoMemory};

    /// It has taken these units.
    ghost took: { Self → List FoundUnit → Type 0 };

    /// Both read texts in the same setting.
    ghost alike: { Self → Self → Type 0 };

    /// It may answer that it needs no more.
    ghost may_stop: { Self → Type 0 };

    /// Takes the next unit. The answer is false where it needs no more.
    fn take(&mut self, found: Found) -> Result<bool, EditFault>
        requires { (all : List FoundUnit) × took self.old all }
        ensures took { (all : List FoundUnit) → took self.old all → IfOk result (λ goes_on. goes_on ≡ true → took self.new (all ++ found_unit found ∷ [])) }
        ensures alike { alike self.old self.new }
        ensures stops { IfOk result (λ goes_on. goes_on ≡ false → may_stop self.new) }
        ensures fault { IfErr result (λ fault. fault ≡ NoMemory) };

    ghost alike_itself: { (a : Self) → alike a a };

    ghost alike_both: { (a b c : Self) → alike a b → alike b c → alike a c };
}

/// Hands the units of a text to a sink, in order; each line is read where it lies in the text. The answer is false where the sink needs no more: no line is
/// read from there on.
pub(crate) fn read_units<S: UnitSink>(clean: CleanText<'_>, sink: &mut S) -> Result<bool, EditFault>
    requires none { S.took sink.old [] }
    ensures took { IfOk result (λ goes_on. goes_on ≡ true → S.took sink.new (units_in clean.entry)) }
    ensures alike { S.alike sink.old sink.new }
    ensures nesting { IfOk result (λ goes_on. goes_on ≡ true → nested_in clean.entry ≡ None) }
    ensures stops { IfOk result (λ goes_on. goes_on ≡ false → S.may_stop sink.new) }
    ensures fault { IfErr result (IsReadFault (nested_in clean.entry)) }
{
    let mut reader = Reader::new(clean.alloc, clean.entities, clean.options.max_containers);
    let mut count = Tally::new();
    let mut rest = clean.as_str();
    while !rest.is_empty() {
        let (line, after) = next_line(rest);
        match reader.line(line, &mut count) {
            Ok(found) => {
                if !hand(sink, found)? {
                    return Ok(false);
                }
            }
            Err(fault) => return Err(fault_in_line(fault, reader.fed())),
        }
        rest = after;
    }
    // Behind the last line no container begins any more.
    match reader.finish() {
        Ok(last) => hand(sink, last),
        Err(_) => Err(EditFault::NoMemory),
    }
}

/// Hands the next unit to a sink, if there is one. It is inlined, since it is called behind each line, and most lines end no unit.
#[inline(always)]
fn hand<S: UnitSink>(sink: &mut S, found: Option<Found>) -> Result<bool, EditFault>
    requires { (all : List FoundUnit) × S.took sink.old all }
    ensures took { (all : List FoundUnit) → S.took sink.old all
        → IfOk result (λ goes_on. goes_on ≡ true → S.took sink.new (all ++ option_to_list (option_map found_unit found))) }
    ensures alike { S.alike sink.old sink.new }
    ensures stops { IfOk result (λ goes_on. goes_on ≡ false → S.may_stop sink.new) }
    ensures fault { IfErr result (λ fault. fault ≡ NoMemory) }
{
    match found {
        Some(found) => sink.take(found),
        None => Ok(true),
    }
}

/// The first line of a text that is not empty, and the text after its ending: an empty line at once. It is inlined, so that an empty line takes no call.
#[inline(always)]
fn next_line(text: &str) -> (&str, &str)
    requires { 0 < length text.now }
    ensures lines { split_lines text.now ≡ result.0.now ∷ split_lines result.1.now }
    ensures shorter { length result.1.now < length text.now }
    ensures text { IsUtf8 result.1.now }
{
    match text.strip_prefix('\n') {
        Some(after) => ("", after),
        None => split_line(text),
    }
}
