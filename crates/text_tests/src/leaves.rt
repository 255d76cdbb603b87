//! Tables of texts and rows. What is wanted is from the standard's text and another program.

mod fronts;
mod marks;
mod table_rows;
