//! Names, targets and keys as they are printed.
ghost use Rattle.std.specs.Prelude.{◌≡◌, Some, IsTrue};
ghost use Rattle.script_output.specs.Escapes.{escaped, escaped_byte, prints_plain};
ghost use Rattle.script_output.specs.Writing.{Pushes};

use mds_types::glyph;
use std::alloc::AllocError;
use std::fmt;

/// One byte of a name, a target or a key as it is printed.
#[derive(Clone, Copy)]
pub struct EscapedByte(pub u8);

impl fmt::Display for EscapedByte {
    ghost output = { λ b. Some (escaped_byte b.0) };

    #[tactic(auto, using(std::proofs::lemmas::Fmt::hex_byte))]
    fn fmt<W: fmt::Write>(&self, f: &mut fmt::Formatter<W>) -> fmt::Result {
        let byte = self.0;
        if prints_plain(byte) {
            let visible = char::from(byte);
            write!(f, "{visible}")
        } else {
            write!(f, "%{byte:02x}")
        }
    }
}

// Whether a byte prints as it is: visible ASCII, but not `%`.
fn prints_plain(byte: u8) -> bool
    ensures { result ≡ prints_plain byte }
{
    0x21 <= byte && byte <= 0x7e && byte != b'%'
}

/// A name, a target or a key as it is printed.
#[derive(Clone, Copy)]
pub struct Escaped<'a>(pub &'a [u8]);

impl fmt::Display for Escaped<'_> {
    ghost output = { λ text. Some (escaped text.0.now) };

    fn fmt<W: fmt::Write>(&self, f: &mut fmt::Formatter<W>) -> fmt::Result {
        for byte in self.0 {
            let printed = EscapedByte(*byte);
            write!(f, "{printed}")?;
        }
        Ok(())
    }
}

/// Puts a name, a target or a key, as it is printed, at the end of a text.
pub fn push_escaped(out: &mut Vec<u8>, bytes: &[u8]) -> Result<(), AllocError>
    ensures { Pushes out.old.items out.new.items (escaped bytes.now) result }
{
    if all_plain(bytes) {
        return out.extend_from_slice(bytes);
    }
    for byte in bytes {
        push_escaped_byte(out, *byte)?;
    }
    Ok(())
}

// Whether all of these bytes print as they are.
fn all_plain(bytes: &[u8]) -> bool
    ensures { IsTrue result → escaped bytes.now ≡ bytes.now }
{
    for byte in bytes {
        if !prints_plain(*byte) {
            return false;
        }
    }
    true
}

// Puts one byte, as it is printed, at the end of a text.
fn push_escaped_byte(out: &mut Vec<u8>, byte: u8) -> Result<(), AllocError>
    ensures { Pushes out.old.items out.new.items (escaped_byte byte) result }
{
    if prints_plain(byte) {
        out.extend_from_slice(&[byte])
    } else {
        out.extend_from_slice(&[b'%', glyph(byte / 16), glyph(byte % 16)])
    }
}
