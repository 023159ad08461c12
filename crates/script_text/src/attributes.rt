//! Attributes of an inode, each behind a word that names it.
ghost use Rattle.std.specs.Prelude.{option_map};
ghost use Rattle.script_words.specs.Words.{words_of};
ghost use Rattle.script_words.specs.Reading.{ReadsWord};
ghost use Rattle.script_words.specs.Arguments.{mode_of, decimal_of, id_of};
ghost use Rattle.script_text.specs.Attributes.{attributes_of, birth_of, if_given, keyed};

use mds_types::{Attributes, Birth, Mode, PackedAttributes};
use script_words::{ReadError, decimal, first, id, is_text, mode, next_word, none};

/// `[mode MODE] [size N] [mtime N] [uid N] [gid N]`: in this order, and at least one of them.
#[tactic(auto, unfolding(crate::specs::Attributes::attributes_of))]
pub fn given_attributes(words: &[u8]) -> Result<PackedAttributes, ReadError>
    ensures { ReadsWord (λ given. given) result (attributes_of (words_of words.now)) }
{
    first(words)?;
    let (mode, rest) = keyed(b"mode", words)?;
    let (size, rest) = keyed(b"size", rest)?;
    let (mtime, rest) = keyed(b"mtime", rest)?;
    let (uid, rest) = keyed(b"uid", rest)?;
    let (gid, rest) = keyed(b"gid", rest)?;
    none(rest)?;
    let mode = mode_given(mode)?;
    let size = number_given(size)?;
    let mtime = number_given(mtime)?;
    let uid = id_given(uid)?;
    let gid = id_given(gid)?;
    Ok(PackedAttributes::of(&Attributes {
        mode,
        size,
        mtime,
        uid,
        gid,
    }))
}

/// `[uid N] [gid N]`: in this order, and 0 where it isn't given. What is made has mtime 0.
#[tactic(auto, unfolding(crate::specs::Attributes::birth_of))]
pub fn given_birth(words: &[u8]) -> Result<Birth, ReadError>
    ensures { ReadsWord (λ birth. birth) result (birth_of (words_of words.now)) }
{
    let (uid, rest) = keyed(b"uid", words)?;
    let (gid, left) = keyed(b"gid", rest)?;
    none(left)?;
    let uid = id_given(uid)?;
    let gid = id_given(gid)?;
    Ok(Birth {
        mtime: 0,
        uid: uid.unwrap_or(0),
        gid: gid.unwrap_or(0),
    })
}

// The word behind the key, where the words begin with the key, and the words that are left.
fn keyed<'a>(key: &[u8], words: &'a [u8]) -> Result<(Option<&'a [u8]>, &'a [u8]), ReadError>
    ensures { ReadsWord (λ w. (option_map (λ word. word.now) w.0, words_of w.1.now)) result
        (keyed key.now (words_of words.now)) }
{
    let Some((word, rest)) = next_word(words) else {
        return Ok((None, words));
    };
    if !is_text(word, key) {
        return Ok((None, words));
    }
    let (value, rest) = first(rest)?;
    Ok((Some(value), rest))
}

// The mode that the word writes, where there is one.
fn mode_given(word: Option<&[u8]>) -> Result<Option<Mode>, ReadError>
    ensures { ReadsWord (λ mode. mode) result (if_given mode_of (option_map (λ w. w.now) word.entry)) }
{
    match word {
        None => Ok(None),
        Some(word) => Ok(Some(mode(word)?)),
    }
}

// The number that the word writes, where there is one.
fn number_given(word: Option<&[u8]>) -> Result<Option<u64>, ReadError>
    ensures { ReadsWord (λ n. n) result (if_given decimal_of (option_map (λ w. w.now) word.entry)) }
{
    match word {
        None => Ok(None),
        Some(word) => Ok(Some(decimal(word)?)),
    }
}

// The owner or the group that the word writes, where there is one.
fn id_given(word: Option<&[u8]>) -> Result<Option<u32>, ReadError>
    ensures { ReadsWord (λ n. n) result (if_given id_of (option_map (λ w. w.now) word.entry)) }
{
    match word {
        None => Ok(None),
        Some(word) => Ok(Some(id(word)?)),
    }
}
