//! Digits of a number, in bases that `itoa` doesn't write.
ghost use Rattle.std.specs.Prelude.{◌≡◌, ◌+◌, ◌<◌, ◌≤◌, ◌++◌, false, length, take, drop};
ghost use Rattle.std.specs.Fmt.{digit_glyph, digits};

/// Writes the digits so that they end at `end`, and returns where they start. What stands before and behind them stays.
#[inline(always)]
pub fn write_digits_in(base: u64, n: u64, bytes: &mut [u8], end: usize) -> usize
    requires low { 2 ≤ base }
    requires high { base ≤ 16 }
    requires room { length (digits base false n) ≤ end }
    requires within { end ≤ length bytes.old }
    ensures start { result + length (digits base false n) ≡ end }
    ensures before { take result bytes.new ≡ take result bytes.old }
    ensures written { drop result bytes.new ≡ digits base false n ++ drop end bytes.old }
{
    let mut left = n;
    let mut at = end;
    while left >= base {
        at -= 1;
        bytes[at] = glyph((left % base) as u8);
        left /= base;
    }
    at -= 1;
    bytes[at] = glyph(left as u8);
    at
}

/// The digit as a byte, in lower case.
#[inline(always)]
pub fn glyph(digit: u8) -> u8
    requires { digit < 16 }
    ensures { result ≡ digit_glyph false digit }
{
    if digit < 10 {
        b'0' + digit
    } else {
        b'a' + (digit - 10)
    }
}
