// The parts of a line that more than one kind of case prints.
use std::fmt;

// Bytes, each as two hex digits.
#[derive(Clone, Copy)]
pub(crate) struct Hex<'a>(pub &'a [u8]);

impl fmt::Display for Hex<'_> {
    fn fmt<W: fmt::Write>(&self, f: &mut fmt::Formatter<W>) -> fmt::Result {
        for b in self.0 {
            write!(f, "{b:02x}")?;
        }
        Ok(())
    }
}

// Whether a record is the one that it is compared with.
pub(crate) fn kept(same: bool) -> &'static str {
    if same { "kept" } else { "changed" }
}
