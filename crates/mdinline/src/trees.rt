//! A tree of inlines that is built from left to right.

ghost use Rattle.std.specs.Prelude.{◌≡◌, ◌+◌, ◌<◌, ◌≤◌, [], ◌∷◌, ◌++◌, IfOk, OnOk, length, reverse, string_bytes, vec_capacity};
ghost use Rattle.inlinespec.specs.CodeSpans.{as_one_line};
ghost use Rattle.inlinespec.specs.InlineEvents.{Enter, span_tree, tree_of, within, written};
ghost use Rattle.inlinespec.specs.LabelMap.{target_of};
ghost use Rattle.mdinline.specs.SpanKinds.{span_of};
ghost use Rattle.mdinline.specs.TreeView.{inline_view, inlines_view};
ghost use Rattle.mdinline.specs.held.HeldReadings.{row_view};
ghost use Rattle.mdinline.specs.held.OpenRows.{AreJoinedRows, AreNested, IsNoText, made_events, nested_prop, open_span, row_events};

mod insides;

use crate::inlines::Inline;
use crate::rows::Row;
use crate::sinks::{InlineSink, SpanKind};
use crate::trees::insides::{push_text, take_inside};
use mdtext::{NoMemory, Target};
use std::alloc::{AllocError, Global};
use std::mem;

/// A span that is open.
#[derive(Drop)]
enum OpenSpan {
    Kind(SpanKind),
    Link(Target),
    Image(Target),
}

/// A span that is open, and where what stands in it begins in the row.
#[derive(Drop)]
struct Frame {
    span: OpenSpan,
    begin: usize,
}

/// The longest row that is built in room that stays. A longer one goes out with what it needs of its room, so that one long text holds no memory for the texts behind it.
const LONG_ROW: usize = 64;

/// Room that a tree is built in, kept from one tree to the next. What lies in it is of no use.
#[derive(Drop)]
pub(crate) struct TreeRoom {
    text: String,
    row: Vec<Inline>,
    frames: Vec<Frame>,
}

impl TreeRoom {
    /// No room yet. Takes no memory.
    pub(crate) fn new(alloc: Global) -> TreeRoom {
        TreeRoom {
            text: String::new(alloc),
            row: Vec::new(alloc),
            frames: Vec::new(alloc),
        }
    }

    /// Room that was built in, of which that for a row is small.
    fn kept(text: String, mut row: Vec<Inline>, frames: Vec<Frame>) -> TreeRoom
        ensures { vec_capacity result.row ≤ 64 }
    {
        let_go(&mut row);
        TreeRoom { text, row, frames }
    }
}

/// A tree up to a place, with the spans that are open there.
#[derive(Drop)]
pub(crate) struct TreeBuilder {
    alloc: Global,
    frames: Vec<Frame>,
    /// What stands before the spans that are open, then what stands in them, that in the innermost last.
    row: Vec<Inline>,
    /// The text behind what stands last, to which what comes next may be joined.
    text: String,
    ghost nested: { AreNested (reverse frames.items) (length row.items) } by { nested_prop (reverse frames.items) (length row.items) },
}

impl TreeBuilder {
    ghost use Rattle.mdinline.specs.held.TreeBuilding.{IsJoined, built};

    /// No inlines yet. What `room` has is let go. Takes no memory.
    pub(crate) fn new(alloc: Global, room: TreeRoom) -> TreeBuilder
        ensures events { built result ≡ [] }
        ensures frames { result.frames.items ≡ [] }
        ensures joined { IsJoined result }
    {
        let TreeRoom {
            mut text,
            mut row,
            mut frames,
        } = room;
        text.clear();
        row.clear();
        frames.clear();
        TreeBuilder {
            alloc,
            frames,
            row,
            text,
        }
    }

    /// The tree, where no span is open, and the room.
    pub(crate) fn finish(mut self) -> Result<(Row, TreeRoom), AllocError>
        ensures tree { self.frames.items ≡ [] → IsJoined self → IfOk result (λ done. row_view done.0 ≡ tree_of (built self)) }
        ensures room { IfOk result (λ done. vec_capacity done.1.row ≤ 64) }
    {
        if self.row.is_empty() {
            return self.finish_text();
        }
        self.end_text()?;
        let TreeBuilder {
            alloc,
            mut row,
            text,
            frames,
        } = self;
        let taken = take_row(alloc, &mut row)?;
        Ok((taken, TreeRoom::kept(text, row, frames)))
    }

    /// The room alone, of which that for a row is small.
    fn into_room(self) -> TreeRoom
        ensures { vec_capacity result.row ≤ 64 }
    {
        let TreeBuilder {
            row,
            text,
            frames,
            ..
        } = self;
        TreeRoom::kept(text, row, frames)
    }

    /// The tree of a text that nothing stands before, and the room. Takes no list.
    fn finish_text(self) -> Result<(Row, TreeRoom), AllocError>
        requires { self.row.items ≡ [] }
        ensures tree { self.frames.items ≡ [] → IfOk result (λ done. row_view done.0 ≡ tree_of (built self)) }
        ensures room { IfOk result (λ done. vec_capacity done.1.row ≤ 64) }
    {
        if self.text.is_empty() {
            return Ok((Row::Empty, self.into_room()));
        }
        let text = String::from_str(self.alloc, &self.text)?;
        Ok((Row::One(Inline::Text(text)), self.into_room()))
    }

    /// Appends the text behind what stands last, if there is any.
    fn end_text(&mut self) -> Result<(), AllocError>
        ensures events { OnOk result (built self.new ≡ built self.old) }
        ensures frames { OnOk result (self.new.frames ≡ self.old.frames) }
        ensures text { OnOk result (string_bytes self.new.text ≡ []) }
        ensures joined { IsJoined self.old → OnOk result (AreJoinedRows (reverse self.new.frames.items) self.new.row.items) }
    {
        push_text(self.alloc, &mut self.row, &mut self.text)?;
        Ok(())
    }

    fn add_text(&mut self, text: &str) -> Result<(), AllocError>
        ensures events { OnOk result (built self.new ≡ built self.old ++ written text.now) }
        ensures frames { OnOk result (self.new.frames ≡ self.old.frames) }
        ensures row { self.new.row ≡ self.old.row }
    {
        self.text.push_str(text)?;
        Ok(())
    }

    /// Appends an inline that is no text.
    fn add(&mut self, inline: Inline) -> Result<(), AllocError>
        ensures events { OnOk result (built self.new ≡ built self.old ++ made_events inline) }
        ensures frames { OnOk result (self.new.frames ≡ self.old.frames) }
        ensures joined { IsNoText (inline_view inline) → IsJoined self.old → OnOk result (IsJoined self.new) }
    {
        self.end_text()?;
        self.row.push(inline)?;
        Ok(())
    }

    fn begin(&mut self, span: OpenSpan) -> Result<(), AllocError>
        ensures events { OnOk result (built self.new ≡ built self.old ++ Enter (open_span span) ∷ []) }
        ensures frames { OnOk result (length self.new.frames.items ≡ length self.old.frames.items + 1) }
        ensures joined { IsJoined self.old → OnOk result (IsJoined self.new) }
    {
        self.end_text()?;
        let begin = self.row.len();
        self.frames.push(Frame { span, begin })?;
        Ok(())
    }

    fn target(&self, url: &str, title: &str) -> Result<Target, AllocError>
        ensures { IfOk result (λ target. target_of target ≡ record { url = url.now; title = title.now }) }
    {
        Ok(Target {
            url: String::from_str(self.alloc, url)?,
            title: String::from_str(self.alloc, title)?,
        })
    }
}

impl InlineSink for TreeBuilder {
    ghost use Rattle.mdinline.specs.held.TreeBuilding.{TreeTakes};
    ghost use Rattle.mdinline.specs.held.TreeTakings.{tree_takes_more, tree_takes_none};

    ghost takes = { TreeTakes };

    ghost takes_none = { tree_takes_none };

    ghost takes_more = { tree_takes_more };

    fn plain(&mut self, text: &str) -> Result<(), NoMemory> {
        self.add_text(text)?;
        Ok(())
    }

    fn text(&mut self, text: &str) -> Result<(), NoMemory> {
        self.add_text(text)?;
        Ok(())
    }

    fn code_span(&mut self, content: &str) -> Result<(), NoMemory> {
        let code = code_of(self.alloc, content)?;
        self.add(Inline::Code(code))?;
        Ok(())
    }

    fn raw_html(&mut self, html: &str) -> Result<(), NoMemory> {
        let html = String::from_str(self.alloc, html)?;
        self.add(Inline::Html(html))?;
        Ok(())
    }

    fn soft_break(&mut self) -> Result<(), NoMemory> {
        self.add(Inline::Soft)?;
        Ok(())
    }

    fn hard_break(&mut self) -> Result<(), NoMemory> {
        self.add(Inline::Hard)?;
        Ok(())
    }

    fn enter(&mut self, kind: SpanKind) -> Result<(), NoMemory> {
        self.begin(OpenSpan::Kind(kind))?;
        Ok(())
    }

    fn enter_link(&mut self, url: &str, title: &str) -> Result<(), NoMemory> {
        let target = self.target(url, title)?;
        self.begin(OpenSpan::Link(target))?;
        Ok(())
    }

    fn enter_image(&mut self, url: &str, title: &str) -> Result<(), NoMemory> {
        let target = self.target(url, title)?;
        self.begin(OpenSpan::Image(target))?;
        Ok(())
    }

    #[tactic(auto, using(crate::proofs::NestedRows::nested_left))]
    fn leave(&mut self) -> Result<(), NoMemory> {
        let Some(frame) = self.frames.pop() else {
            return Ok(());
        };
        let inside = take_inside(self.alloc, &mut self.row, &mut self.text, frame.begin)?;
        self.row.push(span_of(frame.span, inside))?;
        Ok(())
    }
}

/// Takes what stands in the room of a row. A lone inline needs no list, and more go to one of their own, which is no longer than it has to be; a long row takes
/// its room with it, without what is left over.
fn take_row(alloc: Global, last: &mut Vec<Inline>) -> Result<Row, AllocError>
    ensures row { IfOk result (λ row. row_view row ≡ inlines_view last.old.items) }
    ensures room { 64 < length last.old.items → vec_capacity last.new ≡ 0 }
{
    if last.len() > LONG_ROW {
        last.shrink_to_fit();
        return Ok(Row::Many(mem::replace(last, Vec::new(alloc))));
    }
    if last.len() > 1 {
        let mut row = Vec::with_capacity(alloc, last.len())?;
        row.append(last)?;
        return Ok(Row::Many(row));
    }
    match last.pop() {
        Some(inline) => Ok(Row::One(inline)),
        None => Ok(Row::Empty),
    }
}

/// Gives back the room of a list that has more than is kept.
fn let_go(row: &mut Vec<Inline>)
    ensures room { vec_capacity row.new ≤ 64 }
    ensures small { vec_capacity row.old ≤ 64 → row.new ≡ row.old }
{
    if row.capacity() > LONG_ROW {
        row.clear();
        row.shrink_to_fit();
    }
}

/// A text with a space for each line ending.
fn code_of(alloc: Global, content: &str) -> Result<String, AllocError>
    ensures { IfOk result (λ code. string_bytes code ≡ as_one_line content.now) }
{
    let mut code = String::with_capacity(alloc, content.len())?;
    let mut rest = content;
    while let Some((line, after)) = rest.split_once('\n') {
        code.push_str(line)?;
        code.push_str(" ")?;
        rest = after;
    }
    code.push_str(rest)?;
    Ok(code)
}

fn span_of(span: OpenSpan, inside: Vec<Inline>) -> Inline
    ensures events { made_events result ≡ within (open_span span) (row_events inside.items) }
    ensures view { inline_view result ≡ span_tree (open_span span) (inlines_view inside.items) }
{
    match span {
        OpenSpan::Kind(kind) => kind_of(kind, inside),
        OpenSpan::Link(target) => Inline::Link(target, inside),
        OpenSpan::Image(target) => Inline::Image(target, inside),
    }
}

fn kind_of(kind: SpanKind, inside: Vec<Inline>) -> Inline
    ensures events { made_events result ≡ within (span_of kind) (row_events inside.items) }
    ensures view { inline_view result ≡ span_tree (span_of kind) (inlines_view inside.items) }
{
    match kind {
        SpanKind::Emph => Inline::Emph(inside),
        SpanKind::Strong => Inline::Strong(inside),
        SpanKind::Strike => Inline::Strike(inside),
    }
}
