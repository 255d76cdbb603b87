//! The HTML of units: each kind of node with its bytes, and lists that are made from lists like them.

mod bytes;
mod calls;
mod like_lists;
