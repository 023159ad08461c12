//! Numbers in words.
ghost use Rattle.std.specs.Prelude.{◌≡◌, ◌<◌, ◌≤◌, ◌+◌, ◌*◌, ◌^◌, true, IfSome, SomeIff};
ghost use Rattle.script_words.specs.Numbers.{digit_of, are_digits, value_of, is_shortest, number_of, octal_mode_of};

// The most digits of a mode.
const MODE_DIGITS: usize = 4;

/// The value of a digit in lower case, 0 to 15; 16 for a byte that is none.
pub fn digit(byte: u8) -> u8
    ensures value { result ≡ digit_of byte }
    ensures small { result ≤ 16 }
{
    match byte {
        b'0'..=b'9' => byte - b'0',
        b'a'..=b'f' => byte - b'a' + 10,
        _ => 16,
    }
}

/// The number of 64 bits that the word writes in this base with no leading zeros, if it does.
pub fn number(word: &[u8], base: u8) -> Option<u64>
    requires { 1 ≤ base }
    ensures { result ≡ number_of base word.now }
{
    if !is_shortest(word) {
        return None;
    }
    value(word, base)
}

/// The mode that one to four octal digits write, leading zeros allowed.
pub fn octal_mode(word: &[u8]) -> Option<u64>
    ensures value { result ≡ octal_mode_of word.now }
    ensures small { IfSome result (λ n. n ≤ 4095) }
{
    if word.is_empty() || word.len() > MODE_DIGITS {
        return None;
    }
    value(word, 8)
}

// Whether the word has a digit, and no 0 before another.
fn is_shortest(word: &[u8]) -> bool
    ensures { result ≡ is_shortest word.now }
{
    match word {
        [] => false,
        [_] => true,
        [first, ..] => *first != b'0',
    }
}

/// What the bytes stand for, if each is a digit of the base and it fits 64 bits.
pub fn value(word: &[u8], base: u8) -> Option<u64>
    requires { 1 ≤ base }
    ensures { SomeIff result ((are_digits base word.now ≡ true) × (value_of base word.now < 2 ^ 64))
        (value_of base word.now) }
{
    let mut n: u64 = 0;
    for byte in word {
        let next = digit(*byte);
        if next >= base {
            return None;
        }
        let Some(more) = carried(n, base, next) else {
            return None;
        };
        n = more;
    }
    Some(n)
}

// The number with one more digit, if it fits 64 bits.
fn carried(n: u64, base: u8, next: u8) -> Option<u64>
    ensures { SomeIff result (n * base + next < 2 ^ 64) (n * base + next) }
{
    let product = n.checked_mul(u64::from(base))?;
    product.checked_add(u64::from(next))
}
