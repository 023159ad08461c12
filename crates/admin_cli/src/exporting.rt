//! Commands on the exports of subtrees. The bytes that an export sends are kept here from its `send` to its `import`.
ghost use Rattle.std.specs.Prelude.{◌≡◌, IfOk, OnErr};
ghost use Rattle.admin_cli.specs.ExportLines.{CopiesNoBytes, ExecutesExport, ImportsLine, LacksForExport, SendsLine, is_done};
ghost use Rattle.admin_cli.specs.Admin.{seen};

use crate::commands::{Admin, shown_line};
use cluster_core::{Answer, Event};
use keeping::Keep;
use mds_types::{Frag, Ino, Refusal};
use script_output::OutputLine;
use script_text::ExportCommand;
use std::alloc::{AllocError, Global};

impl<S: Keep + Drop> Admin<S> {
    // Does what a command on an export asks for.
    #[inline(never)]
    pub(crate) fn execute_export(
        &mut self,
        alloc: Global,
        command: ExportCommand,
    ) -> Result<OutputLine, AllocError>
        ensures line { IfOk result (ExecutesExport (seen self.old) (seen self.new) command) }
        ensures err { OnErr result (LacksForExport (seen self.old) (seen self.new) command) }
        ensures count { self.new.operations ≡ self.old.operations }
    {
        match command {
            ExportCommand::Dir {
                from,
                ino,
                frag,
                to,
            } => Ok(self.step(
                alloc,
                Event::Start {
                    from,
                    ino,
                    frag,
                    to,
                },
            )),
            ExportCommand::Freeze { ino, frag } => {
                Ok(self.step(alloc, Event::Freeze { ino, frag }))
            }
            ExportCommand::Prep { ino, frag } => Ok(self.step(alloc, Event::Prep { ino, frag })),
            ExportCommand::Send { ino, frag } => self.send(alloc, ino, frag),
            ExportCommand::Import { ino, frag } => self.import(alloc, ino, frag),
            ExportCommand::Finish { ino, frag } => {
                Ok(self.step(alloc, Event::Finish { ino, frag }))
            }
            ExportCommand::Cancel { ino, frag } => {
                Ok(self.step(alloc, Event::Cancel { ino, frag }))
            }
        }
    }

    // `export send INO FRAG`: keeps the bytes that the export sends. An error tells that there was no room for them,
    // and nothing was sent.
    #[inline(never)]
    pub(crate) fn send(
        &mut self,
        alloc: Global,
        ino: Ino,
        frag: Frag,
    ) -> Result<OutputLine, AllocError>
        ensures line { IfOk result (SendsLine (seen self.old) (seen self.new) ino frag) }
        ensures err { OnErr result ((seen self.new) ≡ (seen self.old)) }
        ensures count { self.new.operations ≡ self.old.operations }
    {
        self.sent.reserve()?;
        match self.step_book(alloc, Event::Send { ino, frag }) {
            Ok(Answer::Sent(bytes)) => {
                let length = bytes.as_slice().len() as u64;
                self.sent.keep(ino, frag, bytes);
                Ok(OutputLine::Sent(length))
            }
            other => Ok(shown_line(other)),
        }
    }

    // `export import INO FRAG`: the importer gets a copy of the kept bytes. After the import they are no longer kept.
    // An error tells that there was no memory for the copy.
    #[inline(never)]
    pub(crate) fn import(
        &mut self,
        alloc: Global,
        ino: Ino,
        frag: Frag,
    ) -> Result<OutputLine, AllocError>
        ensures line { IfOk result (ImportsLine (seen self.old) (seen self.new) ino frag) }
        ensures err { OnErr result (CopiesNoBytes (seen self.old) (seen self.new) ino frag) }
        ensures count { self.new.operations ≡ self.old.operations }
    {
        let bytes = self.sent.copy_of(ino, frag)?;
        let imported = self.step_book(alloc, Event::Import { ino, frag, bytes });
        if is_done(&imported) {
            self.sent.forget(ino, frag);
        }
        Ok(shown_line(imported))
    }
}

// Whether a step was made, and not refused.
fn is_done(came: &Result<Answer, Refusal>) -> bool
    ensures { result ≡ is_done came.now }
{
    match came {
        Ok(_) => true,
        Err(_) => false,
    }
}
