//! Rows of the definition of inlines (`inlinespec`) that compute: small texts, their trees and the labels asked for. Nothing depends on this crate; a
//! check of it checks the rows.
#![tactic(auto)]
