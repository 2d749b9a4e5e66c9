//! Which legs of a bridge a command is for.

/// Which legs of a bridge are to be routed anew.
#[derive(Clone, Copy, Debug, PartialEq, Eq)]
pub enum Side {
    /// The channel that is named, in a bridge or not.
    This,
    /// That channel and the other leg of its bridge.
    Both,
    /// The other leg of its bridge alone.
    Other,
}
