//! Words between spaces.
ghost use Rattle.std.specs.Prelude.{◌≡◌, ◌≤◌, [], ◌∷◌, length, MatchOption};
ghost use Rattle.std.specs.List.{list_all, prefix_len};
ghost use Rattle.script_words.specs.Words.{is_text, words_of, is_space, is_not_space, is_printable, is_comment};

/// The first word, and what follows it; none where only spaces are left.
pub fn next_word(bytes: &[u8]) -> Option<(&[u8], &[u8])>
    ensures { MatchOption result (words_of bytes.now ≡ []) (λ r. words_of bytes.now ≡ r.0.now ∷ words_of r.1.now) }
{
    let (_, front) = bytes.split_at(spaces_len(bytes));
    if front.is_empty() {
        return None;
    }
    Some(front.split_at(word_len(front)))
}

// How many spaces the bytes begin with.
fn spaces_len(bytes: &[u8]) -> usize
    ensures value { result ≡ prefix_len is_space bytes.now }
    ensures bound { result ≤ length bytes.now }
{
    bytes.iter().take_while(|byte| **byte == b' ').count()
}

// How many bytes stand before the first space.
fn word_len(bytes: &[u8]) -> usize
    ensures value { result ≡ prefix_len is_not_space bytes.now }
    ensures bound { result ≤ length bytes.now }
{
    bytes.iter().take_while(|byte| **byte != b' ').count()
}

/// Whether a word is this text.
#[inline(always)]
pub fn is_text(word: &[u8], text: &[u8]) -> bool
    ensures { result ≡ is_text word.now text.now }
{
    if word.len() != text.len() {
        return false;
    }
    for i in 0..text.len() {
        if word[i] != text[i] {
            return false;
        }
    }
    true
}

/// Whether the line is a comment: whether its first byte is `#`.
pub fn is_comment(line: &[u8]) -> bool
    ensures { result ≡ is_comment line.now }
{
    match line {
        [] => false,
        [first, ..] => *first == b'#',
    }
}

/// Whether the line has only printable characters of ASCII and spaces.
pub fn is_printable(line: &[u8]) -> bool
    ensures { result ≡ list_all is_printable line.now }
{
    // no byte ends the loop, so the compiler takes many at a time
    let mut all = true;
    for i in 0..line.len() {
        all = all & is_shown(line[i]);
    }
    all
}

// Whether a byte is a printable character of ASCII or a space.
#[inline(always)]
fn is_shown(byte: u8) -> bool
    ensures { result ≡ is_printable byte }
{
    0x20 <= byte && byte <= 0x7e
}
