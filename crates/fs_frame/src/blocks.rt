//! The buffer of a stream, out of which its blocks come.

use crate::block::Block;
use crate::fault::Fault;
use crate::front::{Front, Taken, look};
use crate::next::Next;
use fs_text::Memory;
use std::alloc::Global;
use std::marker::Model;

/// How many bytes a new buffer has offset for.
const FIRST_BYTES: usize = 4_096;

/// A buffer that cuts a stream of bytes into blocks, in whatever pieces the bytes come.
///
/// A contract sees it as a stream: the block that was handed out last, and the bytes that were fed and not handed out.
#[derive(Drop)]
pub struct Blocks {
    bytes: Vec<u8>,
    // The block handed out last begins at `lent`, and the rest begins at `start`.
    lent: usize,
    start: usize,
    // So much is known of the front of the rest.
    front: Front,
}

impl Model for Blocks {
    ghost use Rattle.std.specs.Prelude.{drop, slice_range};
    ghost use Rattle.fs_frame.specs.Stream.{Stream};
    ghost use Rattle.fs_frame.specs.Front.{IsLaidOut};

    ghost Value = { Stream };

    ghost view = { λ b. record {
      last = slice_range b.bytes.items b.lent b.start;
      rest = drop b.start b.bytes.items;
    } };

    ghost invariant = { λ b. IsLaidOut b.bytes.items b.lent b.start b.front };
}

impl Blocks {
    ghost use Rattle.std.specs.Prelude.{◌≡◌, ◌≤◌, [], length, IfOk, OnOk, OnErr};
    ghost use Rattle.std.specs.Borrow.{sem};
    ghost use Rattle.std.specs.Io.BufRead.{Rests};
    ghost use Rattle.fs_frame.specs.Stream.{new_stream, fed_with, after_next_block};
    ghost use Rattle.fs_frame.specs.Next.{IsNext};
    ghost use Rattle.fs_frame.specs.Answer.{HasCommand, IsAnswer, IsTaken};
    ghost use Rattle.fs_frame.specs.declared.next.Next.TheVariants.{NeedMore};
    ghost use Rattle.fs_frame.specs.contracts.blocks.Blocks.{the_row};

    /// A buffer to which nothing was fed.
    pub fn new(alloc: Global) -> Result<Blocks, Memory>
        ensures { IfOk result (λ b. b ≡ new_stream) }
    {
        let bytes = Vec::with_capacity(alloc, FIRST_BYTES)?;
        Ok(Blocks {
            bytes,
            lent: 0,
            start: 0,
            front: Front::unseen(),
        })
    }

    /// Adds a piece of the stream. On want of memory the buffer stays as it was.
    pub fn feed(&mut self, piece: &[u8]) -> Result<(), Memory>
        ensures ok { OnOk result (self.new ≡ fed_with self.old piece.now) }
        ensures err { OnErr result (self.new ≡ self.old) }
    {
        self.bytes.extend_from_slice(piece)?;
        self.let_go();
        Ok(())
    }

    /// How many bytes were fed and not handed out.
    pub fn held(&self) -> usize
        ensures { result ≡ length self.now.rest }
    {
        self.bytes.len() - self.start
    }

    /// Hands out the block in front, or says whether one may still come. One does only where no more bytes are held
    /// than a block may have.
    pub fn next_block(&mut self) -> Next<'_>
        ensures answer { IsNext self.old result }
        ensures few { result ≡ NeedMore → length self.old.rest ≤ 65536 }
        ensures* after { sem 𝓛 (Rests the_row self.entry (λ new. new ≡ after_next_block self.old)) }
    {
        let taken = self.advance();
        self.show(taken)
    }

    // Lets go of what was handed out. It is moved over only once it is the greater part, so that no byte is moved
    // often.
    fn let_go(&mut self)
        ensures { self.new ≡ record self.old { last = [] } }
    {
        let len = self.bytes.len();
        if self.start > len / 2 {
            self.bytes.copy_within(self.start..len, 0);
            self.bytes.truncate(len - self.start);
            self.start = 0;
        }
        self.lent = self.start;
    }

    // Goes behind the block in front, and says what was taken.
    fn advance(&mut self) -> Taken
        ensures after { self.new ≡ after_next_block self.old }
        ensures taken { IsTaken self.old.rest result }
    {
        self.lent = self.start;
        self.front = look(&self.bytes[self.start..], self.front);
        match self.front {
            Front::Headed { len, command } => {
                if len > self.bytes.len() - self.start {
                    return Taken::Nothing;
                }
                self.start += len;
                self.front = Front::unseen();
                Taken::Whole { command }
            }
            Front::Open { .. } => Taken::Nothing,
            Front::Spoilt { fault } => Taken::Spoilt { fault },
        }
    }

    // The answer, where this was taken.
    fn show(&self, taken: Taken) -> Next<'_>
        requires { HasCommand self.now.last taken }
        ensures { IsAnswer self.now.last taken result }
    {
        match taken {
            Taken::Whole { command } => {
                Next::Block(Block::cut(&self.bytes[self.lent..self.start], command))
            }
            Taken::Nothing => Next::NeedMore,
            Taken::Spoilt {
                fault: Fault::TooLong { len },
            } => Next::TooLong { len },
            Taken::Spoilt {
                fault: Fault::BadLength,
            } => Next::BadLength,
        }
    }
}
