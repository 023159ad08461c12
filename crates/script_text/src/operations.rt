//! Operations, by the words after the first.
ghost use Rattle.script_words.specs.Words.{words_of};
ghost use Rattle.script_words.specs.Reading.{GivesWord};
ghost use Rattle.script_text.specs.Operations.{create_of, made_of, mkdir_of, on_dentry_of, readdir_of, symlink_of, setattr_of, setpin_of, rename_of, operation_of};
ghost use Rattle.script_text.specs.Texts.{GivesText, HoldsName};

use crate::attributes::{given_attributes, given_birth};
use mds_types::{Birth, Dentry, Mode, Op};
use script_words::{
    NOT_COMMAND, ReadError, after, first, four, ino, is_text, mode, name, page_size, pin, target,
    three, two, two_texts, word_name,
};
use std::alloc::Global;

/// The operation of this first word, with the arguments in these words.
#[inline(always)]
#[tactic(auto, unfolding(crate::specs::Operations::operation_of))]
pub fn read_operation(alloc: Global, verb: &[u8], args: &[u8]) -> Result<Op, ReadError>
    ensures { GivesText HoldsName result (operation_of verb.now (words_of args.now)) }
{
    if is_text(verb, b"lookup") {
        return on_dentry(alloc, DentryVerb::Lookup, args);
    }
    if is_text(verb, b"readdir") {
        return readdir(alloc, args);
    }
    if is_text(verb, b"create") {
        return create(alloc, args);
    }
    if is_text(verb, b"mkdir") {
        return mkdir(alloc, args);
    }
    if is_text(verb, b"readlink") {
        return on_dentry(alloc, DentryVerb::Readlink, args);
    }
    if is_text(verb, b"symlink") {
        return symlink(alloc, args);
    }
    if is_text(verb, b"setattr") {
        return setattr(alloc, args);
    }
    if is_text(verb, b"setpin") {
        return setpin(alloc, args);
    }
    if is_text(verb, b"unlink") {
        return on_dentry(alloc, DentryVerb::Unlink, args);
    }
    if is_text(verb, b"rmdir") {
        return on_dentry(alloc, DentryVerb::Rmdir, args);
    }
    if is_text(verb, b"rename") {
        return rename(alloc, args);
    }
    Err(NOT_COMMAND)
}

// A verb with nothing but a dentry behind it.
#[derive(Clone, Copy, Debug)]
enum DentryVerb {
    Lookup,
    Readlink,
    Unlink,
    Rmdir,
}

// `INO NAME` behind such a verb. This and the others below are functions of their own, each with room for what it makes
// alone; an operation is put together in one place of each, since each hand that it goes through copies it.
#[inline(never)]
#[tactic(auto, unfolding(crate::specs::Operations::dentry_of_words))]
fn on_dentry(alloc: Global, verb: DentryVerb, args: &[u8]) -> Result<Op, ReadError>
    ensures { GivesText HoldsName result (on_dentry_of verb (words_of args.now)) }
{
    let (dir, word) = two(args)?;
    let dir = ino(dir)?;
    match word_name(alloc, word) {
        Ok(name) => match verb {
            DentryVerb::Lookup => return Ok(Op::Lookup(Dentry { dir, name })),
            DentryVerb::Readlink => return Ok(Op::Readlink(Dentry { dir, name })),
            DentryVerb::Unlink => return Ok(Op::Unlink(Dentry { dir, name })),
            DentryVerb::Rmdir => return Ok(Op::Rmdir(Dentry { dir, name })),
        },
        Err(error) => Err(error),
    }
}

// `create INO NAME MODE [uid N] [gid N]`
#[inline(never)]
fn create(alloc: Global, args: &[u8]) -> Result<Op, ReadError>
    ensures { GivesText HoldsName result (create_of (words_of args.now)) }
{
    let (dentry, mode, birth) = made(alloc, args)?;
    Ok(Op::Create {
        dentry,
        mode,
        birth,
    })
}

// `mkdir INO NAME MODE [uid N] [gid N]`
#[inline(never)]
fn mkdir(alloc: Global, args: &[u8]) -> Result<Op, ReadError>
    ensures { GivesText HoldsName result (mkdir_of (words_of args.now)) }
{
    let (dentry, mode, birth) = made(alloc, args)?;
    Ok(Op::Mkdir {
        dentry,
        mode,
        birth,
    })
}

// `INO NAME MODE [uid N] [gid N]`: a dentry, and what is made there.
#[inline(always)]
#[tactic(auto, unfolding(crate::specs::Operations::made_of))]
fn made(alloc: Global, args: &[u8]) -> Result<(Dentry, Mode, Birth), ReadError>
    ensures { GivesWord (λ made. made) result (made_of (words_of args.now)) }
{
    let (dir, rest) = first(args)?;
    let (word, rest) = first(rest)?;
    let (digits, rest) = first(rest)?;
    let dir = ino(dir)?;
    let mode = mode(digits)?;
    let birth = given_birth(rest)?;
    let name = word_name(alloc, word)?;
    Ok((Dentry { dir, name }, mode, birth))
}

// `readdir INO AFTER MAX`
#[tactic(auto, unfolding(crate::specs::Operations::readdir_of))]
fn readdir(alloc: Global, args: &[u8]) -> Result<Op, ReadError>
    ensures { GivesText HoldsName result (readdir_of (words_of args.now)) }
{
    let (dir, word, max) = three(args)?;
    let dir = ino(dir)?;
    let max = page_size(max)?;
    let after = after(alloc, word)?;
    Ok(Op::Readdir { dir, after, max })
}

// `symlink INO NAME TARGET [uid N] [gid N]`
#[tactic(auto, unfolding(crate::specs::Operations::symlink_of))]
fn symlink(alloc: Global, args: &[u8]) -> Result<Op, ReadError>
    ensures { GivesText HoldsName result (symlink_of (words_of args.now)) }
{
    let (dir, rest) = first(args)?;
    let (word, rest) = first(rest)?;
    let (to, rest) = first(rest)?;
    let dir = ino(dir)?;
    let birth = given_birth(rest)?;
    let (bytes, to_bytes) = two_texts(alloc, word, to)?;
    let name = name(bytes)?;
    let target = target(alloc, to_bytes.as_slice())?;
    Ok(Op::Symlink {
        dentry: Dentry { dir, name },
        target,
        birth,
    })
}

// `setattr INO NAME [mode MODE] [size N] [mtime N] [uid N] [gid N]`
#[tactic(auto, unfolding(crate::specs::Operations::setattr_of))]
fn setattr(alloc: Global, args: &[u8]) -> Result<Op, ReadError>
    ensures { GivesText HoldsName result (setattr_of (words_of args.now)) }
{
    let (dir, rest) = first(args)?;
    let (word, rest) = first(rest)?;
    let dir = ino(dir)?;
    let attributes = given_attributes(rest)?;
    let name = word_name(alloc, word)?;
    Ok(Op::Setattr {
        dentry: Dentry { dir, name },
        attributes,
    })
}

// `setpin INO NAME RANK`, or `-1` in place of RANK
#[tactic(auto, unfolding(crate::specs::Operations::setpin_of))]
fn setpin(alloc: Global, args: &[u8]) -> Result<Op, ReadError>
    ensures { GivesText HoldsName result (setpin_of (words_of args.now)) }
{
    let (dir, word, pinned) = three(args)?;
    let dir = ino(dir)?;
    let pin = pin(pinned)?;
    let name = word_name(alloc, word)?;
    Ok(Op::SetPin {
        dentry: Dentry { dir, name },
        pin,
    })
}

// `rename INO NAME INO NAME`
#[tactic(auto, unfolding(crate::specs::Operations::rename_of))]
fn rename(alloc: Global, args: &[u8]) -> Result<Op, ReadError>
    ensures { GivesText HoldsName result (rename_of (words_of args.now)) }
{
    let (dir, word, to_dir, to_word) = four(args)?;
    let dir = ino(dir)?;
    let to_dir = ino(to_dir)?;
    let (bytes, to_bytes) = two_texts(alloc, word, to_word)?;
    let from_name = name(bytes)?;
    let to_name = name(to_bytes)?;
    Ok(Op::Rename {
        from: Dentry {
            dir,
            name: from_name,
        },
        to: Dentry {
            dir: to_dir,
            name: to_name,
        },
    })
}
