//! A limit of how many spans lie in one another.

use crate::sinks::{InlineSink, SpanKind};
use mdtext::NoMemory;

/// A sink, and how many spans may lie in one another in what it takes. From the first span on that lies in too many it takes nothing more.
#[derive(Drop)]
pub(crate) struct LimitedSink<S> {
    sink: S,
    limit: usize,
    /// How many spans are open, as long as none lay in too many.
    depth: usize,
    is_too_deep: bool,
}

impl<S> LimitedSink<S> {
    ghost use Rattle.std.specs.Prelude.{◌≡◌, ◌+◌, ◌<◌, ◌≤◌, false, true};
    ghost use Rattle.mdinline.specs.held.LimitedSinks.{HasRoom, IsRefused};

    pub(crate) fn new(sink: S, limit: usize) -> LimitedSink<S>
        ensures sink { result.sink ≡ sink }
        ensures limit { result.limit ≡ limit }
        ensures depth { result.depth ≡ 0 }
        ensures fits { result.is_too_deep ≡ false }
    {
        LimitedSink {
            sink,
            limit,
            depth: 0,
            is_too_deep: false,
        }
    }

    /// Whether a span lay in too many others.
    pub(crate) fn is_too_deep(&self) -> bool
        ensures { result ≡ self.now.is_too_deep }
    {
        self.is_too_deep
    }

    pub(crate) fn into_sink(self) -> S
        ensures { result ≡ self.sink }
    {
        self.sink
    }

    /// Counts a span that begins, and answers whether the sink takes it.
    fn enters(&mut self) -> bool
        ensures taken { result ≡ true → HasRoom self.old self.new }
        ensures refused { result ≡ false → IsRefused self.old self.new }
    {
        if self.is_too_deep {
            return false;
        }
        if self.depth >= self.limit {
            self.is_too_deep = true;
            return false;
        }
        self.depth += 1;
        true
    }
}

impl<S: InlineSink> InlineSink for LimitedSink<S> {
    ghost use Rattle.mdinline.specs.held.LimitedSinks.{TakesWithin, within_none, within_more};

    ghost takes = { TakesWithin S.takes };

    ghost takes_none = { λ a. within_none S.takes S.takes_none a };

    ghost takes_more = { λ a b c es fs h k. within_more S.takes S.takes_more a b c es fs h k };

    fn plain(&mut self, text: &str) -> Result<(), NoMemory> {
        if self.is_too_deep {
            return Ok(());
        }
        self.sink.plain(text)?;
        Ok(())
    }

    fn text(&mut self, text: &str) -> Result<(), NoMemory> {
        if self.is_too_deep {
            return Ok(());
        }
        self.sink.text(text)?;
        Ok(())
    }

    fn code_span(&mut self, content: &str) -> Result<(), NoMemory> {
        if self.is_too_deep {
            return Ok(());
        }
        self.sink.code_span(content)?;
        Ok(())
    }

    fn raw_html(&mut self, html: &str) -> Result<(), NoMemory> {
        if self.is_too_deep {
            return Ok(());
        }
        self.sink.raw_html(html)?;
        Ok(())
    }

    fn soft_break(&mut self) -> Result<(), NoMemory> {
        if self.is_too_deep {
            return Ok(());
        }
        self.sink.soft_break()?;
        Ok(())
    }

    fn hard_break(&mut self) -> Result<(), NoMemory> {
        if self.is_too_deep {
            return Ok(());
        }
        self.sink.hard_break()?;
        Ok(())
    }

    fn enter(&mut self, kind: SpanKind) -> Result<(), NoMemory> {
        if !self.enters() {
            return Ok(());
        }
        self.sink.enter(kind)?;
        Ok(())
    }

    fn enter_link(&mut self, url: &str, title: &str) -> Result<(), NoMemory> {
        if !self.enters() {
            return Ok(());
        }
        self.sink.enter_link(url, title)?;
        Ok(())
    }

    fn enter_image(&mut self, url: &str, title: &str) -> Result<(), NoMemory> {
        if !self.enters() {
            return Ok(());
        }
        self.sink.enter_image(url, title)?;
        Ok(())
    }

    fn leave(&mut self) -> Result<(), NoMemory> {
        if self.is_too_deep {
            return Ok(());
        }
        self.sink.leave()?;
        self.depth = self.depth.saturating_sub(1);
        Ok(())
    }
}
