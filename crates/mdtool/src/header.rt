//! What the first line of a command says.
ghost use Rattle.std.specs.Prelude.{◌≡◌, option_map};
ghost use Rattle.std.specs.List.{position};
ghost use Rattle.mdtool.specs.Commands.{split_number, head_of, is_space};
ghost use Rattle.mdtool.specs.Views.{head_view};

use crate::command::Header;
use mdwords::number;

/// What the line says as the first of a command, or nothing where it is none: `html` alone, or `prelude ADD` or
/// `edit AT DEL ADD` with single spaces.
#[tactic(auto, unfolding(crate::specs::Commands::head_of))]
pub fn header(line: &[u8]) -> Option<Header>
    ensures { option_map head_view result ≡ head_of line.now }
{
    if line == b"html".as_slice() {
        return Some(Header::Html);
    }
    if let Some(rest) = line.strip_prefix(b"prelude ") {
        let add = number(rest)?;
        return Some(Header::Prelude { add });
    }
    let rest = line.strip_prefix(b"edit ")?;
    let (at, rest) = number_before_space(rest)?;
    let (del, rest) = number_before_space(rest)?;
    let add = number(rest)?;
    Some(Header::Edit { at, del, add })
}

/// The number before the first space, and what follows that space.
#[tactic(auto, unfolding(crate::specs::Commands::split_number))]
fn number_before_space(text: &[u8]) -> Option<(usize, &[u8])>
    ensures { option_map (λ found. (found.0, found.1.now)) result ≡ split_number text.now }
{
    let space = first_space(text)?;
    let value = number(&text[..space])?;
    Some((value, &text[space + 1..]))
}

fn first_space(text: &[u8]) -> Option<usize>
    ensures { result ≡ position is_space text.now }
{
    text.iter().position(|byte| *byte == b' ')
}
