// Bytes as text for people.
use std::fmt;
use std::fmt::{Display, Formatter};
use storage::rows::id::Id;

// How many bytes of a content that is no text are shown.
const CONTENT_SHOWN: usize = 16;

// In hexadecimal.
#[derive(Clone, Copy)]
pub struct Hex<'a>(pub &'a [u8]);

impl Display for Hex<'_> {
    fn fmt<W: fmt::Write>(&self, f: &mut Formatter<W>) -> fmt::Result {
        for b in self.0 {
            write!(f, "{b:02x}")?;
        }
        Ok(())
    }
}

// An identifier, by its first four bytes: enough to tell one from another.
#[derive(Clone, Copy)]
pub struct IdText(pub Id);

impl Display for IdText {
    fn fmt<W: fmt::Write>(&self, f: &mut Formatter<W>) -> fmt::Result {
        let first = self.0.w0 >> 32;
        write!(f, "{first:08x}..")
    }
}

// A content: in quotes where it is printable, else in hexadecimal, its first bytes and how many there are.
#[derive(Clone, Copy)]
pub struct ContentText<'a>(pub &'a [u8]);

impl Display for ContentText<'_> {
    fn fmt<W: fmt::Write>(&self, f: &mut Formatter<W>) -> fmt::Result {
        let bytes = self.0;
        if bytes.iter().all(|b| b.is_ascii_graphic() || *b == b' ') {
            let text = bytes.escape_ascii();
            return write!(f, "\"{text}\"");
        }
        let len = bytes.len();
        if CONTENT_SHOWN < len {
            let shown = Hex(&bytes[..CONTENT_SHOWN]);
            return write!(f, "{shown}.. ({len} bytes)");
        }
        let shown = Hex(bytes);
        write!(f, "{shown}")
    }
}
