//! What replies tell of the pieces that they bring.

/// How an edit is replied to.
#[derive(Clone, Copy, Debug, Drop, PartialEq, Eq)]
pub enum ReplyForm {
    /// Each piece comes with its number and its length.
    Plain,
    /// Each piece comes with the line on which it begins too, and before the pieces it is told how many lines later those behind them begin.
    WithLines,
}
