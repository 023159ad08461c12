//! The numbers that are given out.

/// The numbers that the next job, the next fragment that is made and the next dirty name get.
#[derive(Clone, Copy, Debug)]
pub struct Counters {
    /// That of the next job.
    pub job: u64,
    /// The generation of the next fragment that is made.
    pub generation: u64,
    /// The version of the next dirty name.
    pub version: u64,
}
