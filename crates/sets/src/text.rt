// A set of stations in words: {0,1,2}.
use crate::contains;
use std::fmt;

// A set of stations, to be written as the list of its stations in braces.
#[derive(Clone, Copy)]
pub struct Listed {
    pub set: u16,
}

impl fmt::Display for Listed {
    fn fmt<W: fmt::Write>(&self, f: &mut fmt::Formatter<W>) -> fmt::Result {
        let mut stations = (0..16).filter(|i| contains(self.set, *i));
        f.write_str("{")?;
        if let Some(first) = stations.next() {
            write!(f, "{first}")?;
        }
        for i in stations {
            write!(f, ",{i}")?;
        }
        f.write_str("}")
    }
}
