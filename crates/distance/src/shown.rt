// How a coordinate and a fix are shown to a reader.
use crate::{Coordinate, Fix, silent};
use std::fmt;
use std::fmt::{Display, Formatter};

impl Display for Coordinate {
    fn fmt<W: fmt::Write>(&self, f: &mut Formatter<W>) -> fmt::Result {
        write!(f, "{}", self.0)
    }
}

// (t,x,y), with a word behind the y where silence follows.
impl Display for Fix {
    fn fmt<W: fmt::Write>(&self, f: &mut Formatter<W>) -> fmt::Result {
        let silence = if silent(*self) { " silence" } else { "" };
        write!(f, "({},{},{}{silence})", self.t.0, self.x, self.y)
    }
}
