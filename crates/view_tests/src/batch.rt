//! The batch way: beside a preview, both ways that it reads a text, and its limits.

mod beside_previews;
mod both_ways;
mod calls;
mod limits;
mod texts;
