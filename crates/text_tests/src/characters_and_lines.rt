//! What the contracts leave open: outside vectors, the happy paths, and each growth refused in turn.
mod characters;
mod columns;
mod entities;
mod escapes;
mod labels;
mod lines;
mod references;
