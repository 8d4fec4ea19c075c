// Answers: a line of numbers each.
use std::io::Print;
use std::{fmt, io};

// Numbers in decimal, one blank between them.
#[derive(Clone, Copy)]
struct Spaced<'a>(&'a [u64]);

impl fmt::Display for Spaced<'_> {
    fn fmt<W: fmt::Write>(&self, f: &mut fmt::Formatter<W>) -> fmt::Result {
        if let Some((first, rest)) = self.0.split_first() {
            write!(f, "{first}")?;
            for x in rest {
                write!(f, " {x}")?;
            }
        }
        Ok(())
    }
}

// Writes numbers in a line, one blank between them.
pub fn say(rt: &impl Print, numbers: &[u64]) -> io::Result<()> {
    rt.println(Spaced(numbers))
}
