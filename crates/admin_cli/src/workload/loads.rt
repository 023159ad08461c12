//! The size of a run.
ghost use Rattle.std.specs.Prelude.{IsTrue};
ghost use Rattle.admin_cli.specs.Loads.{IsLoad};

/// How many threads a run has, and how much they do.
#[derive(Clone, Copy, Debug, PartialEq, Eq)]
pub struct Load {
    /// Ranks, each with a thread: 1 to 16.
    pub ranks: u8,
    /// Threads that encode: 1 to 16.
    pub workers: u8,
    /// Clients, each with a directory: 1 to 64.
    pub clients: u8,
    /// Files that each client creates: at most 1000.
    pub creates: u16,
}

impl Load {
    /// Whether each number is in its range.
    pub fn is_in_range(self) -> bool
        ensures { IsTrue result → IsLoad self.ranks self.workers self.clients self.creates }
    {
        1 <= self.ranks
            && self.ranks <= 16
            && 1 <= self.workers
            && self.workers <= 16
            && 1 <= self.clients
            && self.clients <= 64
            && self.creates <= 1000
    }
}
