//! Commands on the store: commits, fragment trees, the purge list, flushes, eviction, and looks at objects.
ghost use Rattle.std.specs.Prelude.{◌≡◌};
ghost use Rattle.script_words.specs.Words.{words_of};
ghost use Rattle.script_words.specs.Reading.{GivesWord, ReadsWord};
ghost use Rattle.script_text.specs.StoreCommands.{begin_of, commit_of, drop_of, end_of, evict_of, flush_of, is_store_verb, leaf_of_words, object_of_words, objects_of, purge_of, store_command_of, text_name_of, tree_of_words};
ghost use Rattle.script_text.specs.Texts.{GivesText, HoldsObject};

use mds_types::{Frag, Ino, Rank, Text};
use script_words::{NOT_COMMAND, ReadError, decimal, frag, ino, is_text, none, one, rank, three};
use std::alloc::Global;

/// What a line on the store asks for.
#[derive(Debug, Drop, PartialEq, Eq)]
pub enum StoreCommand {
    /// A commit of a leaf is begun, and its job kept.
    CommitBegin { rank: Rank, ino: Ino, frag: Frag },
    /// The kept job of this number is encoded, and its commit ended.
    CommitEnd(u64),
    /// The job of this number is dropped.
    CommitDrop(u64),
    /// A commit of a leaf is begun, and ended at once.
    Commit { rank: Rank, ino: Ino, frag: Frag },
    /// The object of a directory's fragment tree is written, or removed where the directory has one leaf.
    CommitTree(Ino),
    /// The first object of the purge list is removed.
    Purge,
    /// All that isn't in the store is written.
    Flush,
    /// The clean fragment that a rank used least recently leaves its cache.
    Evict(Rank),
    /// What is the object of this name?
    Object(Text),
    /// Which objects has the store?
    Objects,
}

/// Whether commands on the store begin with this word.
pub fn is_store_verb(verb: &[u8]) -> bool
    ensures { result ≡ is_store_verb verb.now }
{
    is_text(verb, b"begin")
        || is_text(verb, b"end")
        || is_text(verb, b"drop")
        || is_text(verb, b"commit")
        || is_text(verb, b"tree")
        || is_text(verb, b"purge")
        || is_text(verb, b"flush")
        || is_text(verb, b"evict")
        || is_text(verb, b"object")
        || is_text(verb, b"objects")
}

/// The command on the store of this first word, with the arguments in these words. Takes memory for an object's name.
#[tactic(auto, unfolding(crate::specs::StoreCommands::store_command_of))]
pub fn read_store_command(
    alloc: Global,
    verb: &[u8],
    args: &[u8],
) -> Result<StoreCommand, ReadError>
    ensures { GivesText HoldsObject result (store_command_of verb.now (words_of args.now)) }
{
    if is_text(verb, b"begin") {
        return begin(args);
    }
    if is_text(verb, b"end") {
        return end(args);
    }
    if is_text(verb, b"drop") {
        return drop_job(args);
    }
    if is_text(verb, b"commit") {
        return commit(args);
    }
    if is_text(verb, b"tree") {
        return tree(args);
    }
    if is_text(verb, b"purge") {
        return purge(args);
    }
    if is_text(verb, b"flush") {
        return flush(args);
    }
    if is_text(verb, b"evict") {
        return evict(args);
    }
    if is_text(verb, b"object") {
        return object(alloc, args);
    }
    if is_text(verb, b"objects") {
        return objects(args);
    }
    Err(NOT_COMMAND)
}

// `RANK INO FRAG`: a leaf, and the rank that is asked.
#[tactic(auto, unfolding(crate::specs::StoreCommands::leaf_of_words))]
fn leaf(args: &[u8]) -> Result<(Rank, Ino, Frag), ReadError>
    ensures { ReadsWord (λ leaf. leaf) result (leaf_of_words (words_of args.now)) }
{
    let (at, dir, part) = three(args)?;
    let rank = rank(at)?;
    let ino = ino(dir)?;
    let frag = frag(part)?;
    Ok((rank, ino, frag))
}

// `begin RANK INO FRAG`
#[tactic(auto, unfolding(crate::specs::StoreCommands::begin_of))]
fn begin(args: &[u8]) -> Result<StoreCommand, ReadError>
    ensures { ReadsWord (λ command. command) result (begin_of (words_of args.now)) }
{
    let (rank, ino, frag) = leaf(args)?;
    Ok(StoreCommand::CommitBegin { rank, ino, frag })
}

// `end J`
#[tactic(auto, unfolding(crate::specs::StoreCommands::end_of))]
fn end(args: &[u8]) -> Result<StoreCommand, ReadError>
    ensures { ReadsWord (λ command. command) result (end_of (words_of args.now)) }
{
    let word = one(args)?;
    Ok(StoreCommand::CommitEnd(decimal(word)?))
}

// `drop J`
#[tactic(auto, unfolding(crate::specs::StoreCommands::drop_of))]
fn drop_job(args: &[u8]) -> Result<StoreCommand, ReadError>
    ensures { ReadsWord (λ command. command) result (drop_of (words_of args.now)) }
{
    let word = one(args)?;
    Ok(StoreCommand::CommitDrop(decimal(word)?))
}

// `commit RANK INO FRAG`
#[tactic(auto, unfolding(crate::specs::StoreCommands::commit_of))]
fn commit(args: &[u8]) -> Result<StoreCommand, ReadError>
    ensures { ReadsWord (λ command. command) result (commit_of (words_of args.now)) }
{
    let (rank, ino, frag) = leaf(args)?;
    Ok(StoreCommand::Commit { rank, ino, frag })
}

// `tree INO`
#[tactic(auto, unfolding(crate::specs::StoreCommands::tree_of_words))]
fn tree(args: &[u8]) -> Result<StoreCommand, ReadError>
    ensures { ReadsWord (λ command. command) result (tree_of_words (words_of args.now)) }
{
    let dir = one(args)?;
    Ok(StoreCommand::CommitTree(ino(dir)?))
}

// `purge`
#[tactic(auto, unfolding(crate::specs::StoreCommands::purge_of))]
fn purge(args: &[u8]) -> Result<StoreCommand, ReadError>
    ensures { ReadsWord (λ command. command) result (purge_of (words_of args.now)) }
{
    none(args)?;
    Ok(StoreCommand::Purge)
}

// `flush`
#[tactic(auto, unfolding(crate::specs::StoreCommands::flush_of))]
fn flush(args: &[u8]) -> Result<StoreCommand, ReadError>
    ensures { ReadsWord (λ command. command) result (flush_of (words_of args.now)) }
{
    none(args)?;
    Ok(StoreCommand::Flush)
}

// `evict RANK`
#[tactic(auto, unfolding(crate::specs::StoreCommands::evict_of))]
fn evict(args: &[u8]) -> Result<StoreCommand, ReadError>
    ensures { ReadsWord (λ command. command) result (evict_of (words_of args.now)) }
{
    let word = one(args)?;
    Ok(StoreCommand::Evict(rank(word)?))
}

// `object NAME`
#[tactic(auto, unfolding(crate::specs::StoreCommands::object_of_words))]
fn object(alloc: Global, args: &[u8]) -> Result<StoreCommand, ReadError>
    ensures { GivesText HoldsObject result (object_of_words (words_of args.now)) }
{
    let word = one(args)?;
    Ok(StoreCommand::Object(text_name(alloc, word)?))
}

// The word itself, as the text that names an object.
#[tactic(auto, using(crate::proofs::TextNames::named, crate::proofs::TextNames::not_named))]
fn text_name(alloc: Global, word: &[u8]) -> Result<Text, ReadError>
    ensures { GivesWord (λ name. name) result (text_name_of word.now) }
{
    match str::from_utf8(word) {
        Ok(name) => Ok(Text::copy_of(alloc, name)?),
        Err(_) => Err(NOT_COMMAND),
    }
}

// `objects`
#[tactic(auto, unfolding(crate::specs::StoreCommands::objects_of))]
fn objects(args: &[u8]) -> Result<StoreCommand, ReadError>
    ensures { ReadsWord (λ command. command) result (objects_of (words_of args.now)) }
{
    none(args)?;
    Ok(StoreCommand::Objects)
}
