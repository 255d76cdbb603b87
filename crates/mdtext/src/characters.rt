//! Classes of characters.
ghost use Rattle.std.specs.Prelude.{◌≡◌};
ghost use Rattle.mdtext.specs.Characters.{is_unicode_white, is_unicode_punct};

use unicode::properties::{GeneralCategory, GeneralCategoryGroup};

/// Whether the character is Unicode whitespace (CommonMark 2.1): of general category Zs, or tab, LF, FF or CR.
/// It takes no memory.
pub fn is_white(character: char) -> bool
    ensures { result ≡ is_unicode_white character }
{
    matches!(character, '\t' | '\n' | '\u{C}' | '\r')
        || GeneralCategory::for_char(character) == GeneralCategory::SpaceSeparator
}

/// Whether the character is Unicode punctuation (CommonMark 2.1): of general category P or S. It takes no memory.
pub fn is_punct(character: char) -> bool
    ensures { result ≡ is_unicode_punct character }
{
    let category = GeneralCategory::for_char(character);
    GeneralCategoryGroup::Punctuation.contains(category)
        || GeneralCategoryGroup::Symbol.contains(category)
}
