// Octets on standard output, each as a space and two digits.
use std::fmt;

#[derive(Clone, Copy)]
pub struct Octets<'a>(pub &'a [u8]);

impl fmt::Display for Octets<'_> {
    fn fmt<W: fmt::Write>(&self, f: &mut fmt::Formatter<W>) -> fmt::Result {
        for o in self.0 {
            write!(f, " {o:02x}")?;
        }
        Ok(())
    }
}
