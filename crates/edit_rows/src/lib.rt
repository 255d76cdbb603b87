//! Rows of the definitions of views and edits, of the lines at which lists may be parted, and of edits that stop inside a list, by computation (`proofs/`); no
//! function, and nothing depends on it.
#![tactic(auto)]
