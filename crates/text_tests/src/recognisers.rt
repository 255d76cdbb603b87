//! Tables of borders for each recogniser, and of the standard's examples.

mod angle_examples;
mod blocks;
mod definition_examples;
mod destination_examples;
mod found;
mod inlines;
mod label_examples;
mod places;
mod tail_examples;
mod title_examples;
