use std::fmt;

/// Octets as they stand in a line on standard error: those from 0x20 to 0x7E as they are, and each other one as `\x` and
/// two lower-case hexadecimal digits.
#[derive(Clone, Copy)]
pub struct Escaped<'a>(pub &'a [u8]);

impl fmt::Display for Escaped<'_> {
    fn fmt<W: fmt::Write>(&self, f: &mut fmt::Formatter<W>) -> fmt::Result {
        for octet in self.0 {
            match *octet {
                shown @ 0x20..=0x7e => write!(f, "{}", shown as char)?,
                other => write!(f, "\\x{other:02x}")?,
            }
        }
        Ok(())
    }
}
