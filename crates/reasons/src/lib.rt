//! Reasons in words: why a line of a script was refused, deferred or forwarded, and why a line is no command. A reason is found
//! by looking at the book as the line left it. Nothing is changed, and no memory is taken.
#![tactic(auto)]

// why a line is no command
mod forms;
mod kinds;
mod misreadings;
mod quoted;
mod reading;

// what a line asked, and what the book shows
mod asked;
mod leaf;
mod looks;

// why it was refused, deferred or forwarded: a file for each subject
mod authorities;
mod exports;
mod grants;
mod jobs;
mod lacking;
mod leaves;
mod requests;
mod room;
mod waiting;

// the sentence
mod finding;
mod names;
mod sentences;

pub use finding::reason;
pub use misreadings::Misread;
pub use reading::misread;
pub use sentences::Reason;
