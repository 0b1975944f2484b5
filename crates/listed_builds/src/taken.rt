//! An edit whose file is read.

/// An edit of a list, with the bytes that it puts.
#[derive(Drop)]
pub enum Taken {
    /// The path gets these bytes.
    Put { path: String, bytes: Vec<u8> },
    /// Nothing stands at the path any more.
    Drop { path: String },
    /// The graph is built of the files as edited so far.
    Build,
}
