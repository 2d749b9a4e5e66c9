//! What parts of a conversation come to.

use crate::end::End;

/// What one round of a conversation came to.
#[derive(Clone, Copy, Debug)]
pub(crate) enum Round {
    GoOn,
    Done(End),
}

/// What a read came to.
#[derive(Clone, Copy, Debug)]
pub(crate) enum Piece {
    More,
    NotYet,
    AtEnd,
    Failed,
}
