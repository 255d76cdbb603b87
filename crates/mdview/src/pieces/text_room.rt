//! What the reading of texts and the writing of units use again.

ghost use Rattle.std.specs.Prelude.{◌≡◌, ◌+◌, ◌<◌, ◌≤◌, [], false, IfOk, IfSome, Some, length, string_bytes, true};
ghost use Rattle.std.specs.List.{AllByRecursion};
ghost use Rattle.mdblock.specs.BlockView.{blocks_view, items_view};
ghost use Rattle.mdblock.specs.Copies.{IsBehind, items_positions};
ghost use Rattle.mdblock.specs.Positions.{BlocksIn, ItemsIn};
ghost use Rattle.mdblock.specs.Spliced.{drop_items, first_items, take_items};
ghost use Rattle.htmlspec.specs.BlockHtml.{blocks_html, texts_html};
ghost use Rattle.mdhtml.specs.InsetLists.{inset_blocks, inset_readings};
ghost use Rattle.htmlspec.specs.ListEnds.{unit_ends};
ghost use Rattle.mdview.specs.HeldTexts.{entities_in};
ghost use Rattle.mdview.specs.HeldUnit.{AreEnds, IsRendered};
ghost use Rattle.mdview.specs.AlikeUnits.{AreAlike};
ghost use Rattle.mdview.specs.WrittenPieces.{IsPieceOf};

use crate::held::pieces::Piece;
use crate::held::units::HeldUnit;
use mdblock::{Block, Item};
use mdhtml::{
    Like, Options, append_inset_anew, append_inset_list, append_unit_ends, append_unit_html,
    append_unit_like,
};
use mdinline::{Parsed, TextReader};
use mdtext::{Entities, NoMemory};
use std::alloc::Global;
use std::mem::replace;

/// Room for the HTML of most units, so that it need not grow bit by bit.
const HTML_ROOM: usize = 1_000;

/// HTML of more bytes goes out in the room in which it was written, with no copy. Of a list whose piece has more, in the place of a piece that has more, it is kept where its items end.
const LONG: usize = 16_384;

/// A held unit that goes, in whose place another comes, and how many texts, from the front on and from the end on, are known to read the same in both.
#[derive(Clone, Copy)]
pub(crate) struct Alike<'a> {
    pub(crate) unit: &'a HeldUnit,
    pub(crate) front: usize,
    pub(crate) behind: usize,
}

/// A reader of texts, and room for the HTML of a unit: both are used again for the next one.
#[derive(Drop)]
pub(crate) struct TextRoom<'a> {
    alloc: Global,
    pub(crate) reader: TextReader<'a>,
    html: String,
}

impl<'a> TextRoom<'a> {
    /// Takes no memory.
    pub(crate) fn new(alloc: Global, entities: &'a Entities) -> TextRoom<'a>
        ensures { entities_in result ≡ entities.now }
    {
        TextRoom {
            alloc,
            reader: TextReader::new(alloc, entities),
            html: String::new(alloc),
        }
    }

    /// The piece of a unit that comes in the place of a held one: where it is known where the items of the held one end, the HTML of items that are the same in both is taken over.
    pub(crate) fn piece_like(
        &mut self,
        blocks: &[Block],
        texts: &[Parsed],
        options: &Options,
        like: Alike<'_>,
    ) -> Result<Piece, NoMemory>
        requires within { BlocksIn (length texts.now) (blocks_view blocks.now) }
        requires rendered { IsRendered options.now like.unit.now }
        requires alike { AreAlike texts.now like }
        ensures html { IfOk result (λ piece. piece.html
            ≡ blocks_html options.now (texts_html options.now texts.now) false (blocks_view blocks.now) []) }
        ensures ends { IfOk result (λ piece. AreEnds options.now texts.now (blocks_view blocks.now) piece.ends) }
        ensures room { entities_in self.new ≡ entities_in self.old }
    {
        match like.unit.ends() {
            Some(ends) => self.list_like(blocks, texts, options, like, ends),
            None => self.unit_piece(blocks, texts, options, like.unit.piece().len()),
        }
    }

    /// The piece of a unit that comes in the place of a held one of which is known where its items end.
    fn list_like(
        &mut self,
        blocks: &[Block],
        texts: &[Parsed],
        options: &Options,
        like: Alike<'_>,
        like_ends: &[usize],
    ) -> Result<Piece, NoMemory>
        requires within { BlocksIn (length texts.now) (blocks_view blocks.now) }
        requires rendered { IsRendered options.now like.unit.now }
        requires like_ends { Some like_ends.now ≡ like.unit.now.ends }
        requires alike { AreAlike texts.now like }
        ensures html { IfOk result (λ piece. piece.html
            ≡ blocks_html options.now (texts_html options.now texts.now) false (blocks_view blocks.now) []) }
        ensures ends { IfOk result (λ piece. AreEnds options.now texts.now (blocks_view blocks.now) piece.ends) }
        ensures room { entities_in self.new ≡ entities_in self.old }
    {
        let was = Like {
            blocks: like.unit.unit().blocks(),
            texts: like.unit.inlines(),
            html: like.unit.piece(),
            ends: like_ends,
            front: like.front,
            behind: like.behind,
        };
        self.html.clear();
        let mut ends = Vec::new(self.alloc);
        append_unit_like(blocks, texts, options, &was, &mut self.html, &mut ends)?;
        self.written(ends)
    }

    /// The piece of a list of a held list's first `front` items, of `items`, and of the held list's items from number `later` on, which stay where they are; of the
    /// same kind, and tight or loose as that is. `None` where the HTML of the held list can't be cut.
    pub(crate) fn inset_piece(
        &mut self,
        items: &[Item],
        front: usize,
        later: usize,
        texts: &[Parsed],
        options: &Options,
        like: Alike<'_>,
    ) -> Result<Option<Piece>, NoMemory>
        requires within { ItemsIn (length texts.now) (items_view items.now) }
        requires order { IsBehind 0 (items_positions (items_view items.now)) (length texts.now) }
        requires room { like.front ≤ length like.unit.now.read.readings }
        requires before { AllByRecursion (λ at. at < like.front) (items_positions (take_items front (first_items like.unit.now.read.unit.blocks))) }
        requires behind { AllByRecursion (λ at. like.front + length texts.now ≤ at) (items_positions (drop_items later (first_items like.unit.now.read.unit.blocks))) }
        requires rendered { IsRendered options.now like.unit.now }
        ensures piece { IfOk result (λ piece. IfSome piece (IsPieceOf options.now (inset_readings like.entry.front texts.now like.entry.unit.now.read.readings)
            (inset_blocks front like.entry.front (items_view items.now) later like.entry.unit.now.read.unit.blocks))) }
        ensures room { entities_in self.new ≡ entities_in self.old }
    {
        self.html.clear();
        let mut ends = Vec::new(self.alloc);
        if !write_inset(
            items,
            front,
            later,
            texts,
            options,
            like,
            &mut self.html,
            &mut ends,
        )? {
            return Ok(None);
        }
        Ok(Some(self.written(ends)?))
    }

    /// The piece of a unit: the HTML of its blocks, whose texts read as `texts`. It takes as much memory as it has bytes; `like` is the length of the piece in
    /// whose place it comes, and 0 where there is none.
    pub(crate) fn unit_piece(
        &mut self,
        blocks: &[Block],
        texts: &[Parsed],
        options: &Options,
        like: usize,
    ) -> Result<Piece, NoMemory>
        requires { BlocksIn (length texts.now) (blocks_view blocks.now) }
        ensures html { IfOk result (λ piece. piece.html
            ≡ blocks_html options.now (texts_html options.now texts.now) false (blocks_view blocks.now) []) }
        ensures ends { IfOk result (λ piece. AreEnds options.now texts.now (blocks_view blocks.now) piece.ends) }
        ensures room { entities_in self.new ≡ entities_in self.old }
    {
        if like > LONG {
            return self.long_piece(blocks, texts, options);
        }
        self.html.clear();
        self.html.reserve(HTML_ROOM)?;
        append_unit_html(blocks, texts, options, &mut self.html)?;
        Ok(Piece::new(self.taken_html()?, None))
    }

    /// The piece of a unit that comes in the place of a long one.
    fn long_piece(
        &mut self,
        blocks: &[Block],
        texts: &[Parsed],
        options: &Options,
    ) -> Result<Piece, NoMemory>
        requires { BlocksIn (length texts.now) (blocks_view blocks.now) }
        ensures html { IfOk result (λ piece. piece.html
            ≡ blocks_html options.now (texts_html options.now texts.now) false (blocks_view blocks.now) []) }
        ensures ends { IfOk result (λ piece. AreEnds options.now texts.now (blocks_view blocks.now) piece.ends) }
        ensures room { entities_in self.new ≡ entities_in self.old }
    {
        self.html.clear();
        self.html.reserve(HTML_ROOM)?;
        let mut ends = Vec::new(self.alloc);
        append_unit_ends(blocks, texts, options, &mut self.html, &mut ends)?;
        self.written(ends)
    }

    /// The piece that was written; of a long one with where items end in it, if there are any.
    fn written(&mut self, ends: Vec<usize>) -> Result<Piece, NoMemory>
        ensures html { IfOk result (λ piece. piece.html ≡ string_bytes self.old.html) }
        ensures ends { IfOk result (λ piece. IfSome piece.ends (λ ns. ns ≡ ends.items)) }
        ensures room { entities_in self.new ≡ entities_in self.old }
    {
        let html = self.taken_html()?;
        if html.len() <= LONG || ends.is_empty() {
            return Ok(Piece::new(html, None));
        }
        let mut ends = ends;
        ends.shrink_to_fit();
        Ok(Piece::new(html, Some(Box::new(self.alloc, ends)?)))
    }

    /// The HTML that was written, in no more memory than it needs: a copy, or the room itself where it is long.
    fn taken_html(&mut self) -> Result<String, NoMemory>
        ensures html { IfOk result (λ html. string_bytes html ≡ string_bytes self.old.html) }
        ensures room { entities_in self.new ≡ entities_in self.old }
    {
        if self.html.len() <= LONG {
            return String::from_str(self.alloc, &self.html);
        }
        let mut html = replace(&mut self.html, String::new(self.alloc));
        html.shrink_to_fit();
        Ok(html)
    }
}

/// Writes a list of a held list's first `front` items, of `items`, and of the held list's items from number `later` on: where it is known where the held ones end
/// in its HTML, their bytes are taken over. Answers whether it wrote them.
fn write_inset(
    items: &[Item],
    front: usize,
    later: usize,
    texts: &[Parsed],
    options: &Options,
    like: Alike<'_>,
    html: &mut String,
    ends: &mut Vec<usize>,
) -> Result<bool, NoMemory>
    requires within { ItemsIn (length texts.now) (items_view items.now) }
    requires order { IsBehind 0 (items_positions (items_view items.now)) (length texts.now) }
    requires room { like.front ≤ length like.unit.now.read.readings }
    requires before { AllByRecursion (λ at. at < like.front) (items_positions (take_items front (first_items like.unit.now.read.unit.blocks))) }
    requires behind { AllByRecursion (λ at. like.front + length texts.now ≤ at) (items_positions (drop_items later (first_items like.unit.now.read.unit.blocks))) }
    requires rendered { IsRendered options.now like.unit.now }
    requires no_text { string_bytes html.old ≡ [] }
    requires no_ends { ends.old.items ≡ [] }
    ensures html { IfOk result (λ done. done ≡ true → string_bytes html.new
        ≡ blocks_html options.now (texts_html options.now (inset_readings like.entry.front texts.now like.entry.unit.now.read.readings)) false
        (inset_blocks front like.entry.front (items_view items.now) later like.entry.unit.now.read.unit.blocks) []) }
    ensures ends { IfOk result (λ done. done ≡ true → ends.new.items
        ≡ unit_ends options.now (texts_html options.now (inset_readings like.entry.front texts.now like.entry.unit.now.read.readings))
        (inset_blocks front like.entry.front (items_view items.now) later like.entry.unit.now.read.unit.blocks)) }
{
    let unit = like.unit;
    let was = Like {
        blocks: unit.unit().blocks(),
        texts: unit.inlines(),
        html: unit.piece(),
        ends: unit.ends().unwrap_or(&[]),
        front: like.front,
        behind: 0,
    };
    if unit.ends().is_some() {
        return append_inset_list(items, front, later, texts, options, &was, html, ends);
    }
    html.reserve(unit.piece().len().saturating_add(HTML_ROOM))?;
    append_inset_anew(items, front, later, texts, options, &was, html, ends)
}
