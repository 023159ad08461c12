//! The encoded write of a job.
ghost use Rattle.std.specs.Prelude.{◌≡◌, IfOk, IfErr};
ghost use Rattle.cached_frag.specs.Commit.{carried};

use crate::jobs::Job;
use crate::writes::write_of;
use mds_types::Refusal;
use objstore::WriteOp;
use std::alloc::{AllocError, Global};
use std::marker::Model;

/// A job with the one write that commits its snapshot. Whoever holds it knows that the write is that of the job's own
/// snapshot.
#[derive(Debug, Drop)]
pub struct Encoded {
    job: Job,
    op: WriteOp,
}

impl Model for Encoded {
    ghost use Rattle.std.specs.Coded.{codes};
    ghost use Rattle.std.specs.Prelude.{◌≡◌};
    ghost use Rattle.std.specs.FinMap as map;
    ghost use Rattle.cached_frag.specs.Commit.{Carried, write_of};

    ghost Value = { Carried };

    ghost coded = { Prim.hlevel (codes, map.code) };

    ghost view = { λ e. record { job = e.job; op = e.op } };

    ghost invariant = { λ e. e.op ≡ write_of e.job.snapshot };
}

impl Encoded {
    /// The write of a job's snapshot. Takes memory for it; nothing else can be refused.
    pub fn of(alloc: Global, job: Job) -> Result<Encoded, Refusal>
        ensures ok { IfOk result (λ encoded. encoded ≡ carried job) }
        ensures err { IfErr result (λ refusal. refusal ≡ Refusal.NoMemory) }
    {
        let op = write_of(alloc, &job.snapshot)?;
        Ok(Encoded { job, op })
    }

    /// The job.
    pub fn job(&self) -> &Job
        ensures job { result.now ≡ self.now.job }
        ensures valid { self.now ≡ carried self.now.job }
    {
        &self.job
    }

    /// The write of the job's snapshot.
    pub fn op(&self) -> &WriteOp
        ensures op { result.now ≡ self.now.op }
        ensures valid { self.now ≡ carried self.now.job }
    {
        &self.op
    }

    /// A copy. Takes memory for job and write.
    pub fn try_clone(&self) -> Result<Encoded, AllocError>
        ensures { IfOk result (λ copy. copy ≡ self.now) }
    {
        Ok(Encoded {
            job: self.job.try_clone()?,
            op: self.op.try_clone()?,
        })
    }
}
