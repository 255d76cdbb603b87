//! A command of the script.

use crate::joined_lines::JoinedLines;

/// What a command's first line says. Numbers are in lines, counted from 0.
#[derive(Clone, Copy)]
pub enum Header {
    Html,
    Prelude { add: usize },
    Edit { at: usize, del: usize, add: usize },
}

/// A whole command: an edit with the lines that it adds, or a prelude with its lines.
#[derive(Drop)]
pub enum Command {
    Html,
    Prelude {
        lines: JoinedLines,
    },
    Edit {
        at: usize,
        del: usize,
        add: JoinedLines,
    },
}
