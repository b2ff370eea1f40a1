// What bounds the tree of a text.

// Whether the text is of the second version, the most levels, and the text's length.
#[derive(Clone, Copy)]
pub struct Bounds {
    pub second: bool,
    pub levels: u32,
    pub end: u32,
}
