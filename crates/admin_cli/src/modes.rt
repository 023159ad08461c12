//! The options of a script, beside its lines.

/// What the options of a script ask for. If none is set, the script is run as it is written.
#[derive(Clone, Copy, Debug, PartialEq, Eq)]
pub struct Mode {
    /// The line of a request also gets its answer.
    pub asks: bool,
    /// The store has a file, in which each flush is kept.
    pub keeps: bool,
    /// How many entries of the history are kept after each line; all, if none is given. The book forgets older ones in
    /// bulk (`Book::forget`), so it has fewer than twice as many.
    pub history: Option<u32>,
}
