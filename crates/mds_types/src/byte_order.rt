//! How bytes compare: many at a time, as numbers.
ghost use Rattle.std.specs.Prelude.{◌≡◌, ◌+◌, ◌≤◌, length, min};
ghost use Rattle.std.specs.Cmp.Lexicographic.{slice_cmp};
ghost use Rattle.std.specs.Ordering.{nat_cmp};
ghost use Rattle.mds_types.specs.ByteOrder.{Settles, word_at};

use std::cmp::Ordering;

/// How bytes compare, as memory does. The first sixteen, which settle it for nearly all names, are compared as numbers.
pub(crate) fn compare(a: &[u8], b: &[u8]) -> Ordering
    ensures { result ≡ slice_cmp nat_cmp a.now b.now }
{
    let both = a.len().min(b.len());
    if both < 4 {
        return a.cmp(b);
    }
    let (x, y) = fronts(a, b, both);
    if x != y {
        return x.cmp(&y);
    }
    if both <= 16 {
        return a.len().cmp(&b.len());
    }
    a.cmp(b)
}

/// Two numbers that were read from the first bytes, of which both have so many. Two words, which may overlap, are at
/// most sixteen bytes.
#[inline(always)]
pub(crate) fn fronts(a: &[u8], b: &[u8], both: usize) -> (u64, u64)
    requires some { 4 ≤ both }
    requires first { both ≤ length a.now }
    requires second { both ≤ length b.now }
    ensures { Settles a.now b.now (min 16 both) result.0 result.1 }
{
    if both < 8 {
        let (x, y) = (four(a, 0), four(b, 0));
        return if x != y {
            (x, y)
        } else {
            (four(a, both - 4), four(b, both - 4))
        };
    }
    let next = (both - 8).min(8);
    let (x, y) = (eight(a, 0), eight(b, 0));
    if x != y {
        (x, y)
    } else {
        (eight(a, next), eight(b, next))
    }
}

/// Two numbers that were read from 22 bytes of each, in at most three words, of which the last two overlap.
#[inline(always)]
pub(crate) fn words_of_short(a: &[u8], b: &[u8]) -> (u64, u64)
    requires first { length a.now ≡ 22 }
    requires second { length b.now ≡ 22 }
    ensures { Settles a.now b.now 22 result.0 result.1 }
{
    let (x, y) = fronts(a, b, 16);
    if x != y {
        (x, y)
    } else {
        (eight(a, 14), eight(b, 14))
    }
}

// Four bytes from a place on, as a number.
#[inline(always)]
fn four(s: &[u8], i: usize) -> u64
    requires { i + 4 ≤ length s.now }
    ensures { result ≡ word_at s.now i 4 }
{
    u64::from(u32::from_be_bytes([s[i], s[i + 1], s[i + 2], s[i + 3]]))
}

// Eight of them.
#[inline(always)]
fn eight(s: &[u8], i: usize) -> u64
    requires { i + 8 ≤ length s.now }
    ensures { result ≡ word_at s.now i 8 }
{
    u64::from_be_bytes([
        s[i],
        s[i + 1],
        s[i + 2],
        s[i + 3],
        s[i + 4],
        s[i + 5],
        s[i + 6],
        s[i + 7],
    ])
}
