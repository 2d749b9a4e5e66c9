//! What a caller knows of a book.

ghost use Rattle.std.specs.Prelude.{◌≡◌, ◌<◌, length};
ghost use Rattle.fs_book.specs.Turns.{tickets_of, Sound};

use crate::rule::BookSeat;
use crate::turned::Turned;

/// What one caller knows of a book: the journal as far as it has seen it, which places of it are its own, and which
/// those of each pass that was met into it.
///
/// A pass has some of the 2^62 parts of its book. It takes no bytes but for their number.
#[derive(Drop)]
pub struct Pass<M: Turned> {
    pub(crate) seat: BookSeat<M>,
    pub(crate) parts: u64,
    ghost empty_handed: { length seat.me.1 ≡ 0 },
    ghost no_ticket: { tickets_of seat.me.0.stage ≡ 0 },
    ghost some_part: { (seat.me.0.parts ≡ parts) × (0 < parts) },
    pub ghost sound: { Sound M.opens M.names seat.me.0 },
}

impl<M: Turned> Pass<M> {
    /// How many of the 2^62 parts it has.
    pub fn parts(&self) -> u64
        ensures { result ≡ self.now.seat.me.0.parts }
    {
        self.parts
    }
}
