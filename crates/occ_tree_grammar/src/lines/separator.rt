//! What stands between the parts of a list in a line.

/// What stands between the parts of a list.
#[derive(Clone, Copy)]
pub enum Separator {
    /// `,`
    Comma,
    /// `;`
    Semicolon,
}
