//! The plan of a rank's thread.

use cluster_core::Event;
use mds_types::{Bytes, Frag, Ino};

/// One turn of a rank's thread.
#[derive(Debug, Drop)]
pub enum Turn {
    /// One step of the book.
    Step(Event),
    /// Begins a commit of a leaf at the thread's own rank, and hands its job to the workers.
    Commit { ino: Ino, frag: Frag },
    /// Makes the step that the thread's own rank proposes.
    Own,
    /// Keeps the bytes of an export that was sent before the run, for an Import in a later turn of this thread.
    Keep { ino: Ino, frag: Frag, bytes: Bytes },
}
