//! The store of objects, a map from names to objects: what it promises (`Store`), one in memory, and one that fails a
//! chosen call, to try what stands on it. A fault of a store changes nothing. An object is as RADOS has it: a header
//! and an ordered map from keys to values (its omap), all of them bytes. It is read in pages and changed by whole
//! operations; an operation is done in full or not at all. Also the keys that a directory's entries have in their
//! fragment's object.
#![tactic(auto)]

mod entry_keys;
mod fault_stores;
mod key_sets;
mod laws;
mod mem_stores;
mod name_pages;
mod objects;
mod pages;
mod pairs;
mod stores;
mod write_ops;

pub use entry_keys::{key_of, name_of};
pub use fault_stores::FaultStore;
pub use key_sets::KeySet;
pub use laws::pages_make_up_whole;
pub use mem_stores::MemStore;
pub use name_pages::NamePage;
pub use objects::Object;
pub use pages::Page;
pub use pairs::Pairs;
pub use stores::Store;
pub use write_ops::WriteOp;
