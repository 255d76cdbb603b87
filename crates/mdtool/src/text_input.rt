//! What a program reads as its text or script.

use std::fs::File;
use std::io::{Read, Result, Stdin};

/// A file that the words name, or standard input.
#[derive(Drop)]
pub enum TextInput {
    /// The file that the words name.
    Named(File),
    /// Standard input, where they name none.
    Standard(Stdin),
}

impl Read for TextInput {
    fn read(&mut self, buf: &mut [u8]) -> Result<usize> {
        match self {
            TextInput::Named(file) => file.read(buf),
            TextInput::Standard(stdin) => stdin.read(buf),
        }
    }
}
