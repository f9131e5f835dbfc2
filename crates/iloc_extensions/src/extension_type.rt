//! Which extension is meant.

/// Which extension: one of the three with a meaning of their own, or another by its singleton byte.
///
/// The order is as written here, and then by byte.
#[derive(Debug, Clone, Copy, PartialEq, Eq, PartialOrd, Ord, Hash)]
pub enum ExtensionType {
    /// The transform extension, `t`.
    Transform,
    /// The unicode extension, `u`.
    Unicode,
    /// The private extension, `x`.
    Private,
    /// Any other extension.
    Other(u8),
}
