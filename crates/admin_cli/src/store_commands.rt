//! Commands on the store: commits, fragment trees, the purge list, flushes, eviction, and looking at objects.
ghost use Rattle.std.specs.Prelude.{◌≡◌, ℕ, cond, IfOk, List, OnErr, Option, Result};
ghost use Rattle.std.specs.FinMap as map;
ghost use Rattle.admin_cli.specs.Modes.{SavesLine};
ghost use Rattle.admin_cli.specs.StoreLines.{BeginsJob, BeginsLine, CommitsLine, CopiesNone, EndsJob, EndsLine, ExecutesStore, FlushesLine, IsFlush, LacksForCommit, LacksForStore, ListsObjects, LooksLine, LosesJob, begun_line as line_of, is_hindered as hinders, is_over};
ghost use Rattle.admin_cli.specs.Admin.{seen};

use crate::commands::{Admin, shown_line};
use crate::kept_jobs::KeptJobs;
use cached_frag::Encoded;
use cluster_core::{Answer, Book, Event, flush};
use keeping::Keep;
use mds_types::{Frag, Ino, Rank, Refusal};
use script_output::{OutputLine, object_line, objects_line};
use script_text::StoreCommand;
use std::alloc::{AllocError, Global};
use std::thread::Threads;

impl<S: Keep + Drop> Admin<S> {
    // Does what a command on the store asks for. Each part is a function of its own, so that a line costs only its own
    // part.
    #[inline(never)]
    pub(crate) fn execute_store(
        &mut self,
        rt: &(impl Threads + Sync),
        alloc: Global,
        command: StoreCommand,
    ) -> Result<OutputLine, AllocError>
        ensures line { IfOk result (ExecutesStore (seen self.old) (seen self.new) command) }
        ensures err { OnErr result (LacksForStore (seen self.old) (seen self.new) command) }
        ensures count { self.new.operations ≡ self.old.operations }
    {
        match command {
            StoreCommand::CommitBegin { rank, ino, frag } => {
                self.begin_line(alloc, rank, ino, frag)
            }
            StoreCommand::CommitEnd(job) => self.end(alloc, job),
            StoreCommand::CommitDrop(job) => Ok(self.end_job(
                alloc,
                job,
                Event::CommitDrop { job },
            )),
            StoreCommand::Commit { rank, ino, frag } => self.commit(alloc, rank, ino, frag),
            StoreCommand::CommitTree(ino) => Ok(self.step(alloc, Event::CommitTree { ino })),
            StoreCommand::Purge => Ok(self.step(alloc, Event::Purge)),
            StoreCommand::Flush => Ok(self.flush(rt, alloc)),
            StoreCommand::Evict(rank) => Ok(self.step(alloc, Event::Evict { rank })),
            StoreCommand::Object(name) => Ok(self.object(alloc, name.as_str())),
            StoreCommand::Objects => Ok(self.objects(alloc)),
        }
    }

    // Begins a commit of a leaf, keeps its job and returns the job's number, if there is a job. An error tells that a
    // job began and that there was no memory to keep it.
    #[inline(never)]
    fn begin(
        &mut self,
        alloc: Global,
        rank: Rank,
        ino: Ino,
        frag: Frag,
    ) -> Result<Result<Option<u64>, Refusal>, AllocError>
        ensures begun { IfOk result (λ number. BeginsJob (seen self.old) (seen self.new) rank ino frag number) }
        ensures err { OnErr result (LosesJob (seen self.old) (seen self.new) rank ino frag) }
        ensures count { self.new.operations ≡ self.old.operations }
    {
        match self.step_book(alloc, Event::CommitBegin { rank, ino, frag }) {
            Ok(Answer::Job(job)) => {
                let number = job.number;
                self.jobs.keep(job)?;
                Ok(Ok(Some(number)))
            }
            Ok(Answer::Nothing) => Ok(Ok(None)),
            Ok(Answer::Reply { .. }) => Ok(Ok(None)),
            Ok(Answer::Forwarded(_)) => Ok(Ok(None)),
            Ok(Answer::Deferred) => Ok(Ok(None)),
            Ok(Answer::Sent(_)) => Ok(Ok(None)),
            Err(refusal) => Ok(Err(refusal)),
        }
    }

    // `begin RANK INO FRAG`
    #[inline(never)]
    fn begin_line(
        &mut self,
        alloc: Global,
        rank: Rank,
        ino: Ino,
        frag: Frag,
    ) -> Result<OutputLine, AllocError>
        ensures line { IfOk result (BeginsLine (seen self.old) (seen self.new) rank ino frag) }
        ensures err { OnErr result (LosesJob (seen self.old) (seen self.new) rank ino frag) }
        ensures count { self.new.operations ≡ self.old.operations }
    {
        Ok(begun_line(self.begin(alloc, rank, ino, frag)?))
    }

    // `end J`: encodes the kept job and ends its commit. An error tells that there was no memory to copy the job.
    #[inline(never)]
    fn end(&mut self, alloc: Global, number: u64) -> Result<OutputLine, AllocError>
        ensures line { IfOk result (EndsLine (seen self.old) (seen self.new) number) }
        ensures err { OnErr result (CopiesNone (seen self.old) (seen self.new) number) }
        ensures count { self.new.operations ≡ self.old.operations }
    {
        let Some(job) = self.jobs.get(number) else {
            return Ok(OutputLine::Refused(Refusal::StaleJob))
        };
        let copy = job.try_clone()?;
        match Encoded::of(alloc, copy) {
            Ok(encoded) => Ok(self.end_job(alloc, number, Event::CommitEnd(encoded))),
            Err(refusal) => Ok(OutputLine::Refused(refusal)),
        }
    }

    // Makes a step that ends a commit or gives it up. Once the commit is over, its job is no longer kept.
    #[inline(never)]
    fn end_job(&mut self, alloc: Global, number: u64, event: Event) -> OutputLine
        ensures { EndsJob (seen self.old) (seen self.new) number event result }
    {
        let ended = self.step_book(alloc, event);
        if is_over(&ended) {
            self.jobs.forget(number);
        }
        shown_line(ended)
    }

    // `commit RANK INO FRAG`: begins a commit of a leaf, and ends it at once.
    #[inline(never)]
    fn commit(
        &mut self,
        alloc: Global,
        rank: Rank,
        ino: Ino,
        frag: Frag,
    ) -> Result<OutputLine, AllocError>
        ensures line { IfOk result (CommitsLine (seen self.old) (seen self.new) rank ino frag) }
        ensures err { OnErr result (LacksForCommit (seen self.old) (seen self.new) rank ino frag) }
        ensures count { self.new.operations ≡ self.old.operations }
    {
        match self.begin(alloc, rank, ino, frag)? {
            Ok(Some(number)) => self.end(alloc, number),
            Ok(None) => Ok(OutputLine::Nothing),
            Err(refusal) => Ok(OutputLine::Refused(refusal)),
        }
    }

    // `flush`: writes all that the store doesn't have yet, and keeps no job any more. While an export exists it is
    // refused, and nothing changes.
    #[inline(never)]
    fn flush(&mut self, rt: &(impl Threads + Sync), alloc: Global) -> OutputLine
        ensures { FlushesLine (seen self.old) (seen self.new) result }
    {
        match self.flush_book(rt, alloc) {
            Ok(()) => OutputLine::Flushed,
            Err(refusal) => OutputLine::Refused(refusal),
        }
    }

    /// `flush`, if the store has a file. The file may refuse what was written; then a later flush keeps it.
    #[inline(never)]
    pub(crate) fn save(&mut self, rt: &(impl Threads + Sync), alloc: Global) -> OutputLine
        ensures { SavesLine (seen self.old) (seen self.new) result }
    {
        if let Err(refusal) = self.flush_book(rt, alloc) {
            return OutputLine::Refused(refusal);
        }
        match self.book.keep() {
            Ok(kept) => {
                drop(kept);
                OutputLine::Flushed
            }
            Err(why) => OutputLine::Unsaved(why),
        }
    }

    // Flushes the book, and keeps no job any more, unless an export exists.
    #[inline(never)]
    pub(crate) fn flush_book(
        &mut self,
        rt: &(impl Threads + Sync),
        alloc: Global,
    ) -> Result<(), Refusal>
        ensures count { self.new.operations ≡ self.old.operations }
        ensures jobs { self.new.jobs ≡ cond (hinders result) self.old.jobs map.empty }
        ensures sent { self.new.sent ≡ self.old.sent }
        ensures flushed { IsFlush self.old.book self.new.book result }
    {
        let flushed = write_all(rt, alloc, &mut self.book);
        if !is_hindered(&flushed) {
            self.jobs = KeptJobs::new(alloc);
        }
        flushed
    }

    // Shows the object of this name.
    #[inline(never)]
    fn object(&self, alloc: Global, name: &str) -> OutputLine
        ensures { LooksLine self.now.book.core.state.tree.objects name.now result }
    {
        match object_line(alloc, self.book.cluster().store().memory().get(name)) {
            Ok(line) => OutputLine::Object(line),
            Err(refusal) => OutputLine::Refused(refusal),
        }
    }

    // Lists the objects of the store.
    #[inline(never)]
    fn objects(&self, alloc: Global) -> OutputLine
        ensures { ListsObjects self.now.book.core.state.tree.objects result }
    {
        match objects_line(alloc, self.book.cluster().store().memory()) {
            Ok(line) => line,
            Err(refusal) => OutputLine::Refused(refusal),
        }
    }
}

// Whether the commit is over that a step was to end or to give up.
fn is_over(ended: &Result<Answer, Refusal>) -> bool
    ensures { result ≡ is_over ended.now }
{
    match ended {
        Ok(_) => true,
        Err(refusal) => refusal.number() == Refusal::StaleJob.number(),
    }
}

// Whether a flush was refused since an export exists.
fn is_hindered(flushed: &Result<(), Refusal>) -> bool
    ensures { result ≡ hinders flushed.now }
{
    match flushed {
        Ok(()) => false,
        Err(refusal) => refusal.number() == Refusal::NotClean.number(),
    }
}

// The line of a commit that began, or of its refusal.
fn begun_line(number: Result<Option<u64>, Refusal>) -> OutputLine
    ensures { result ≡ line_of number }
{
    match number {
        Ok(Some(number)) => OutputLine::Job(number),
        Ok(None) => OutputLine::Nothing,
        Err(refusal) => OutputLine::Refused(refusal),
    }
}

// Flushes a book.
#[tactic(auto, using(crate::proofs::FlushedLaws::cold_after))]
fn write_all<S: Keep + Drop>(
    rt: &(impl Threads + Sync),
    alloc: Global,
    book: &mut Book<S>,
) -> Result<(), Refusal>
    ensures { IsFlush book.old book.new result }
{
    let flushed = flush(rt, alloc, book);
    // The contract of `store` says here that a store with all its objects in memory reports no fault.
    let _ = book.cluster().store();
    flushed
}
