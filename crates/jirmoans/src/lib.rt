//! The engine from C. Each exported function calls the libraries below, and says their clauses again.
#![tactic(auto)]

mod faults;
mod handles;
mod messages;
mod previews;
mod session;
mod settings;
mod shown;
mod slots;
mod texts;
