//! The block that a line begins, by the order in which the constructs are tried.

ghost use Rattle.std.specs.Prelude.{◌≡◌, ◌&&◌, not, is_none, Some, IfSome, drop, false, [], List};
ghost use Rattle.std.specs.Option.{option_map};
ghost use Rattle.mdscan.specs.Blanks.{is_blank_text, begins_with};
ghost use Rattle.blockspec.specs.BlockLine.{BlockLine, rest, behind_marker};
ghost use Rattle.blockspec.specs.BlankLines.{is_blank_line};
ghost use Rattle.blockspec.specs.BlockKinds.{Lazy, is_free, is_inside};
ghost use Rattle.blockspec.specs.AtxHeadings.{begins_atx};
ghost use Rattle.blockspec.specs.FencedCode.{begins_fence};
ghost use Rattle.blockspec.specs.HtmlBlocks.{begins_html};
ghost use Rattle.blockspec.specs.ListItems.{begins_item, may_begin_item};
ghost use Rattle.blockspec.specs.BlockStart.{start};
ghost use Rattle.mdblock.specs.held.Continuations.{IsBeginningOf};
ghost use Rattle.mdblock.specs.held.StartKind.{mode_view, kind_of_start, stays_lazy};
ghost use Rattle.mdblock.specs.held.StartSpans.{IsStartOf};
ghost use Rattle.mdblock.specs.held.StartParts.{begins_marker, start_before_underline, start_after_underline, start_alone_near, start_alone};

use crate::lines::{Line, is_space_or_tab};
use mdscan::{AtxLine, FenceLine, Marker, atx, fence, html_start, list_marker, thematic};

/// What stands open where a line is tried.
#[derive(Clone, Copy)]
pub(crate) enum Mode {
    /// No paragraph.
    Free,
    /// A paragraph, all of whose containers match the line.
    Inside,
    /// A paragraph in a container that does not match the line.
    Lazy,
}

impl Mode {
    fn is_free(self) -> bool
        ensures { result ≡ is_free (mode_view self) }
    {
        matches!(self, Mode::Free)
    }

    fn is_inside(self) -> bool
        ensures { result ≡ is_inside (mode_view self) }
    {
        matches!(self, Mode::Inside)
    }
}

/// The block that a line begins, paragraphs apart.
#[derive(Clone, Copy)]
pub(crate) enum BlockStart {
    Quote,
    Heading(AtxLine),
    Fence(FenceLine),
    /// An HTML block of one of the seven kinds.
    Html(u8),
    Break,
    Item(Marker),
    Code,
}

impl BlockStart {
    /// Whether a line that begins this where no paragraph is open continues one in a container that it does not match (CommonMark 5.1).
    fn stays_lazy(self) -> bool
        ensures { (line : BlockLine) → result ≡ stays_lazy (Some (kind_of_start line self)) }
    {
        match self {
            BlockStart::Html(kind) => kind >= 7,
            BlockStart::Code => true,
            BlockStart::Quote
            | BlockStart::Heading(_)
            | BlockStart::Fence(_)
            | BlockStart::Break
            | BlockStart::Item(_) => false,
        }
    }
}

/// The block that a line begins, but for setext underlines and tables, which need the paragraph before.
#[tactic(auto, using(crate::proofs::StartLaws::starts_alone), unfolding(crate::specs::held::StartParts::start_alone))]
pub(crate) fn start(line: &Line, mode: Mode) -> Option<BlockStart>
    ensures parts { IfSome result (λ opening. IsStartOf (rest line.now) opening) }
    ensures kind { option_map (kind_of_start line.now) result ≡ start_alone (mode_view mode) line.now }
    ensures alone { is_inside (mode_view mode) ≡ false → option_map (kind_of_start line.now) result ≡ start (mode_view mode) [] line.now }
{
    if line.is_blank() {
        return None;
    }
    if line.is_near_margin() {
        return at_margin(line, mode);
    }
    if mode.is_free() {
        return Some(BlockStart::Code);
    }
    None
}

/// The block that a line begins where no paragraph is open; none where it is blank or begins a paragraph.
pub(crate) fn beginning(line: &Line) -> Option<BlockStart>
    ensures { IsBeginningOf line.now result }
{
    start(line, Mode::Free)
}

/// Whether a line continues a paragraph in a container that it does not match (CommonMark 5.1), where `opening` is what it begins if none is open:
/// it is not blank, and begins nothing that may interrupt a paragraph.
pub(crate) fn continues_lazily(line: &Line, opening: Option<BlockStart>) -> bool
    requires { IsBeginningOf line.now opening }
    ensures { result ≡ (not (is_blank_line line.now) && is_none (start Lazy [] line.now)) }
{
    match opening {
        None => !line.is_blank(),
        Some(found) => found.stays_lazy(),
    }
}

#[tactic(auto, unfolding(crate::specs::held::StartParts::start_alone_near))]
fn at_margin(line: &Line, mode: Mode) -> Option<BlockStart>
    ensures parts { IfSome result (λ opening. IsStartOf (rest line.now) opening) }
    ensures kind { option_map (kind_of_start line.now) result ≡ start_alone_near (mode_view mode) line.now }
{
    match before_underline(line, mode) {
        Some(opening) => Some(opening),
        None => after_underline(line, mode),
    }
}

/// The constructs that are tried before the setext underline. Each has marks of its own to begin with.
pub(crate) fn before_underline(line: &Line, mode: Mode) -> Option<BlockStart>
    ensures parts { IfSome result (λ opening. IsStartOf (rest line.now) opening) }
    ensures kind { option_map (kind_of_start line.now) result ≡ start_before_underline (mode_view mode) line.now }
{
    let text = line.text();
    if begins(text, b'>') {
        return Some(BlockStart::Quote);
    }
    if begins(text, b'#') {
        return heading(line);
    }
    if begins(text, b'<') {
        return html(line, mode);
    }
    if begins(text, b'`') || begins(text, b'~') {
        return fenced_code(line);
    }
    None
}

fn begins(text: &str, mark: u8) -> bool
    ensures { result ≡ begins_with mark text.now }
{
    match text.as_bytes() {
        [first, ..] => *first == mark,
        [] => false,
    }
}

/// An ATX heading (CommonMark 4.2).
fn heading(line: &Line) -> Option<BlockStart>
    ensures parts { IfSome result (λ opening. IsStartOf (rest line.now) opening) }
    ensures kind { option_map (kind_of_start line.now) result ≡ begins_atx line.now }
{
    match atx(line.text()) {
        Some(heading) => Some(BlockStart::Heading(heading)),
        None => None,
    }
}

/// Fenced code (CommonMark 4.5).
fn fenced_code(line: &Line) -> Option<BlockStart>
    ensures parts { IfSome result (λ opening. IsStartOf (rest line.now) opening) }
    ensures kind { option_map (kind_of_start line.now) result ≡ begins_fence line.now }
{
    match fence(line.text()) {
        Some(fence) => Some(BlockStart::Fence(fence)),
        None => None,
    }
}

/// An HTML block (CommonMark 4.6): the seventh kind begins only where no paragraph is open.
fn html(line: &Line, mode: Mode) -> Option<BlockStart>
    ensures parts { IfSome result (λ opening. IsStartOf (rest line.now) opening) }
    ensures kind { option_map (kind_of_start line.now) result ≡ begins_html (mode_view mode) line.now }
{
    match html_start(line.text()) {
        Some(kind) => {
            if kind < 7 || mode.is_free() {
                return Some(BlockStart::Html(kind));
            }
            None
        }
        None => None,
    }
}

/// The constructs that are tried after the setext underline.
#[tactic(auto, using(crate::proofs::FirstBytes::none_behind), unfolding(crate::specs::held::StartParts::start_after_underline))]
pub(crate) fn after_underline(line: &Line, mode: Mode) -> Option<BlockStart>
    ensures parts { IfSome result (λ opening. IsStartOf (rest line.now) opening) }
    ensures kind { option_map (kind_of_start line.now) result ≡ start_after_underline (mode_view mode) line.now }
{
    if !begins_marker(line.text()) {
        return None;
    }
    if thematic(line.text()) {
        return Some(BlockStart::Break);
    }
    item(line, mode)
}

/// Whether a mark of a thematic break or of a list item stands first.
fn begins_marker(text: &str) -> bool
    ensures { result ≡ begins_marker text.now }
{
    match text.as_bytes() {
        [first, ..] => matches!(*first, b'*' | b'-' | b'_' | b'+') || first.is_ascii_digit(),
        [] => false,
    }
}

/// An item of a list (CommonMark 5.2).
fn item(line: &Line, mode: Mode) -> Option<BlockStart>
    ensures parts { IfSome result (λ opening. IsStartOf (rest line.now) opening) }
    ensures kind { option_map (kind_of_start line.now) result ≡ begins_item (mode_view mode) line.now }
{
    match list_marker(line.text()) {
        Some(marker) => {
            if may_begin_item(line, mode, marker) {
                return Some(BlockStart::Item(marker));
            }
            None
        }
        None => None,
    }
}

/// Whether an item may begin where a paragraph may be open (CommonMark 5.2): it interrupts one only where something
/// follows its marker and its number is 1.
fn may_begin_item(line: &Line, mode: Mode, marker: Marker) -> bool
    ensures { result ≡ may_begin_item (mode_view mode) marker (behind_marker line.now marker.width) }
{
    !mode.is_inside()
        || (!is_blank_from(line.text().as_bytes(), marker.width) && marker.start.unwrap_or(1) == 1)
}

/// Whether nothing but spaces and tabs stand from a place on.
fn is_blank_from(text: &[u8], at: usize) -> bool
    ensures { result ≡ is_blank_text (drop at text.now) }
{
    text.iter().skip(at).all(|byte| is_space_or_tab(*byte))
}
