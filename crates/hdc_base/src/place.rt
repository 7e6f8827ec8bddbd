//! Places in texts.

/// A place in a text: its line and its column in bytes, both from 1.
#[derive(Clone, Copy, Debug, PartialEq, Eq)]
pub struct At {
    pub line: u32,
    pub col: u32,
}

/// Which text a place lies in.
#[derive(Clone, Copy, Debug, PartialEq, Eq)]
pub enum Src {
    Program,
    Prelude,
}

/// A place, with the text in which it lies.
#[derive(Clone, Copy, Debug, PartialEq, Eq)]
pub struct Place {
    pub src: Src,
    pub at: At,
}
