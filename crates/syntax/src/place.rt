//! How one code point of a text goes out: as it is, behind a backslash, or as a hex escape.
#[derive(Clone, Copy, PartialEq, Eq, Debug)]
pub enum Treatment {
    Stay,
    Backslash,
    Hex,
}
