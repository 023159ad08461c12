//! What a script for a metadata cluster prints: the line for each result, the text of replies, names, leaves, subtree
//! roots and objects, and the writing of such lines. It also tells what an object of the store is. The definitions of
//! the text are in `specs/`, with the laws that what it prints of a name, a number or a fragment is read back.
#![tactic(auto)]

mod escapes;
mod fixed_texts;
mod frag_lists;
mod laws;
mod lines;
mod object_lines;
mod objects;
mod own_turns;
mod replies;
mod root_lists;
mod text_ends;
mod word_lists;
mod writing;

pub use frag_lists::FragList;
pub use laws::{fragments_read_back, names_read_back, numbers_read_back};
pub use lines::OutputLine;
pub use object_lines::ObjectLine;
pub use objects::{object_has_one_line, object_line, objects_line};
pub use own_turns::{OwnResult, OwnStep, OwnTurn};
pub use replies::{Heading, push_reply_line};
pub use root_lists::{Root, RootList};
pub use word_lists::WordList;
pub use writing::{OutputFault, WriteFault, write_all_of, write_line, write_most_of};
