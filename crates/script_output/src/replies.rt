//! The line of a reply. Most of what a script prints are such lines, so they are put together by hand.
ghost use Rattle.std.specs.Prelude.{◌≡◌, ◌+◌, ◌≤◌, ◌++◌, codes, length, OnErr, OnOk};
ghost use Rattle.std.specs.List.{flat_map};
ghost use Rattle.script_output.specs.Texts.{entry_text, kind_text, listed_text, more_text, owner_text, pin_text};
ghost use Rattle.script_output.specs.ReplyLines.{PushesHeaded, PushesReply, entries_front};
ghost use Rattle.script_output.specs.Lines.{line_of_reply, output_line};
ghost use Rattle.script_output.specs.Writing.{Pushes};

use crate::escapes::push_escaped;
use crate::text_ends::TextEnd;
use mds_types::{Inode, Kind, Listing, Name, Rank, Reply, Target};
use std::alloc::AllocError;

/// What stands before a reply on its line.
#[derive(Clone, Copy)]
pub struct Heading {
    pub client: u64,
    pub tid: u64,
    pub place: u64,
    pub first: bool,
}

/// Puts the line of a reply with its LF at the end of a text, as `push_to` does that of an `OutputLine`. Where there is no
/// memory for it, the text stays as it was.
#[tactic(auto, unfolding(crate::specs::Lines::output_line))]
pub fn push_reply_line(
    out: &mut Vec<u8>,
    heading: &Heading,
    reply: &Reply,
) -> Result<(), AllocError>
    ensures ok { OnOk result (out.new.items ≡ out.old.items
        ++ (output_line (line_of_reply heading.now reply.now) ++ codes "\n")) }
    ensures err { OnErr result (out.new.items ≡ out.old.items) }
{
    let len = out.len();
    let pushed = push_reply(out, heading, reply);
    if pushed.is_err() {
        out.truncate(len);
    }
    pushed
}

/// Puts the line of a reply at the end of a text, with its LF.
pub fn push_reply(out: &mut Vec<u8>, heading: &Heading, reply: &Reply) -> Result<(), AllocError>
    ensures { PushesReply out.old.items out.new.items heading.now reply.now result }
{
    match reply {
        Reply::Entry(inode) => push_entry(out, heading, inode),
        Reply::Entries { list, more } => push_entries(out, heading, list, *more),
        Reply::Target(target) => push_target(out, heading, target),
        Reply::Done => push_done(out, heading),
        Reply::Errno(errno) => push_errno(out, heading, *errno),
    }
}

// `entry INO KIND MODE SIZE MTIME`, ` owner UID GID` and ` pin RANK`
fn push_entry(out: &mut Vec<u8>, heading: &Heading, inode: &Inode) -> Result<(), AllocError>
    ensures { PushesReply out.old.items out.new.items heading.now (Reply.Entry inode.now) result }
{
    let mut end = TextEnd::new();
    end.put(b"\n");
    put_inode(&mut end, inode);
    push_headed(out, heading, &mut end)
}

// Puts `entry INO KIND MODE SIZE MTIME`, ` owner UID GID` and ` pin RANK` before a text.
fn put_inode(end: &mut TextEnd, inode: &Inode)
    requires { 147 + length end.old ≤ 256 }
    ensures text { end.new ≡ entry_text inode.now ++ end.old }
    ensures long { length end.new ≤ 147 + length end.old }
{
    put_pin(end, inode.pin);
    put_owner(end, inode.uid, inode.gid);
    end.put_decimal(inode.mtime);
    end.put(b" ");
    end.put_decimal(inode.size);
    end.put(b" ");
    end.put_mode(inode.mode);
    end.put(b" ");
    put_kind(end, &inode.kind);
    end.put(b" ");
    end.put_hexadecimal(inode.ino.0);
    end.put(b"entry ");
}

// Puts ` owner UID GID` before a text, where one of them isn't 0.
fn put_owner(end: &mut TextEnd, uid: u32, gid: u32)
    requires { 48 + length end.old ≤ 256 }
    ensures text { end.new ≡ owner_text uid gid ++ end.old }
    ensures long { length end.new ≤ 48 + length end.old }
{
    if uid == 0 && gid == 0 {
        return;
    }
    end.put_decimal(u64::from(gid));
    end.put(b" ");
    end.put_decimal(u64::from(uid));
    end.put(b" owner ");
}

// Puts ` pin RANK` before a text, where one is set.
fn put_pin(end: &mut TextEnd, pin: Option<Rank>)
    requires { 25 + length end.old ≤ 256 }
    ensures text { end.new ≡ pin_text pin ++ end.old }
    ensures long { length end.new ≤ 25 + length end.old }
{
    if let Some(rank) = pin {
        end.put_decimal(u64::from(rank.0));
        end.put(b" pin ");
    }
}

// Puts `file`, `dir` or `link` before a text.
fn put_kind(end: &mut TextEnd, kind: &Kind)
    requires { 4 + length end.old ≤ 256 }
    ensures text { end.new ≡ kind_text kind.now ++ end.old }
    ensures long { length end.new ≤ 4 + length end.old }
{
    match kind {
        Kind::File => end.put(b"file"),
        Kind::Dir => end.put(b"dir"),
        Kind::Symlink(_) => end.put(b"link"),
    }
}

// `entries K more` or `entries K end`, and then each entry
fn push_entries(
    out: &mut Vec<u8>,
    heading: &Heading,
    list: &Listing,
    more: bool,
) -> Result<(), AllocError>
    ensures { PushesReply out.old.items out.new.items heading.now (Reply.Entries list.now more) result }
{
    push_entries_heading(out, heading, list.as_slice().len(), more)?;
    push_listing(out, list)?;
    out.extend_from_slice(b"\n")
}

// `entries K more` or `entries K end`, and what stands before it.
fn push_entries_heading(
    out: &mut Vec<u8>,
    heading: &Heading,
    count: usize,
    more: bool,
) -> Result<(), AllocError>
    ensures { PushesHeaded out.old.items out.new.items heading.now (entries_front count more) result }
{
    let mut end = TextEnd::new();
    put_more(&mut end, more);
    end.put(b" ");
    end.put_decimal(count as u64);
    end.put(b"entries ");
    push_headed(out, heading, &mut end)
}

// Puts `more` or `end` before a text.
fn put_more(end: &mut TextEnd, more: bool)
    requires { 4 + length end.old ≤ 256 }
    ensures text { end.new ≡ more_text more ++ end.old }
    ensures long { length end.new ≤ 4 + length end.old }
{
    if more {
        end.put(b"more");
    } else {
        end.put(b"end");
    }
}

// Each entry of a listing.
fn push_listing(out: &mut Vec<u8>, list: &Listing) -> Result<(), AllocError>
    ensures { Pushes out.old.items out.new.items (flat_map listed_text list.now) result }
{
    for entry in list.as_slice() {
        push_listed(out, entry)?;
    }
    Ok(())
}

// A space and `NAME:INO`.
fn push_listed(out: &mut Vec<u8>, entry: &(Name, Inode)) -> Result<(), AllocError>
    ensures { Pushes out.old.items out.new.items (listed_text entry.now) result }
{
    let mut end = TextEnd::new();
    end.put_hexadecimal(entry.1.ino.0);
    end.put(b":");
    out.extend_from_slice(b" ")?;
    push_escaped(out, entry.0.as_bytes())?;
    out.extend_from_slice(end.as_bytes())
}

// `target TARGET`
fn push_target(out: &mut Vec<u8>, heading: &Heading, target: &Target) -> Result<(), AllocError>
    ensures { PushesReply out.old.items out.new.items heading.now (Reply.Target target.now) result }
{
    let mut end = TextEnd::new();
    end.put(b"target ");
    push_headed(out, heading, &mut end)?;
    push_escaped(out, target.as_bytes())?;
    out.extend_from_slice(b"\n")
}

// `done`
fn push_done(out: &mut Vec<u8>, heading: &Heading) -> Result<(), AllocError>
    ensures { PushesReply out.old.items out.new.items heading.now Reply.Done result }
{
    let mut end = TextEnd::new();
    end.put(b"done\n");
    push_headed(out, heading, &mut end)
}

// `errno N`
fn push_errno(out: &mut Vec<u8>, heading: &Heading, errno: u16) -> Result<(), AllocError>
    ensures { PushesReply out.old.items out.new.items heading.now (Reply.Errno errno) result }
{
    let mut end = TextEnd::new();
    end.put(b"\n");
    end.put_decimal(u64::from(errno));
    end.put(b"errno ");
    push_headed(out, heading, &mut end)
}

// Puts what stands before a reply, and then the end of its line, at the end of a text.
fn push_headed(out: &mut Vec<u8>, heading: &Heading, end: &mut TextEnd) -> Result<(), AllocError>
    requires { 75 + length end.old ≤ 256 }
    ensures { PushesHeaded out.old.items out.new.items heading.now end.old result }
{
    if heading.first {
        end.put(b" new ");
    } else {
        end.put(b" again ");
    }
    end.put_decimal(heading.place);
    end.put(b" ");
    end.put_decimal(heading.tid);
    end.put(b" ");
    end.put_decimal(heading.client);
    end.put(b"reply ");
    out.extend_from_slice(end.as_bytes())
}
