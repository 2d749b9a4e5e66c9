//! How the line of a load is read.

ghost use Rattle.std.specs.Prelude.{◌≡◌};
ghost use Rattle.fs_replay.specs.Reading as spec;

use crate::fault::Fault;
use crate::reader::Reader;
use fs_machine::{Act, LoadNote};
use fs_text::Txt;
use std::alloc::Global;

/// Which pattern of a text was refused.
#[derive(Clone, Copy)]
pub(crate) struct Spot {
    pub extension: u32,
    pub condition: u32,
}

/// What is noted of a text that was loaded.
#[derive(Clone, Copy)]
pub(crate) enum Kind {
    Ready,
    DocRefused,
    PatternRefused(Spot),
    PatternTooLarge(Spot),
}

impl Kind {
    /// The note of a load of this text.
    fn of(self, text: Txt) -> LoadNote
        ensures { result ≡ spec.noted self text }
    {
        match self {
            Kind::Ready => LoadNote::Ready(text),
            Kind::DocRefused => LoadNote::DocRefused(text),
            Kind::PatternRefused(spot) => LoadNote::PatternRefused {
                text,
                extension: spot.extension,
                condition: spot.condition,
            },
            Kind::PatternTooLarge(spot) => LoadNote::PatternTooLarge {
                text,
                extension: spot.extension,
                condition: spot.condition,
            },
        }
    }
}

impl<'a> Reader<'a> {
    /// Takes what a load says, and the text that was loaded.
    pub fn loaded(&mut self, alloc: Global) -> Result<Act, Fault>
        ensures { spec.Gave result self.new (spec.loaded_at self.old) }
    {
        let Some(job) = self.field() else {
            return Err(Fault::Bad);
        };
        let note = self.note(alloc)?;
        Ok(Act::Loaded { job, note })
    }

    /// Takes what is noted of a load.
    fn note(&mut self, alloc: Global) -> Result<LoadNote, Fault>
        ensures { spec.Gave result self.new (spec.note_at self.old) }
    {
        if self.word(b" absent\n") {
            return Ok(LoadNote::Absent);
        }
        if self.word(b" failed\n") {
            return Ok(LoadNote::Failed);
        }
        let Some((kind, len)) = self.notice() else {
            return Err(Fault::Bad);
        };
        let text = self.block(alloc, len)?;
        Ok(kind.of(text))
    }

    /// Takes what is noted of a text, and the length of the text.
    fn notice(&mut self) -> Option<(Kind, u64)>
        ensures { spec.Took result self.new (spec.notice_at self.old) }
    {
        let kind = self.kind()?;
        let len = self.field()?;
        if self.word(b"\n") {
            Some((kind, len))
        } else {
            None
        }
    }

    /// Takes what is noted of a text.
    fn kind(&mut self) -> Option<Kind>
        ensures { spec.Took result self.new (spec.kind_at self.old) }
    {
        if self.word(b" ready") {
            Some(Kind::Ready)
        } else if self.word(b" doc") {
            Some(Kind::DocRefused)
        } else if self.word(b" pattern") {
            Some(Kind::PatternRefused(self.spot()?))
        } else if self.word(b" large") {
            Some(Kind::PatternTooLarge(self.spot()?))
        } else {
            None
        }
    }

    /// Takes an extension and a condition.
    fn spot(&mut self) -> Option<Spot>
        ensures { spec.Took result self.new (spec.spot_at self.old) }
    {
        let extension = self.conn()?;
        let condition = self.conn()?;
        Some(Spot {
            extension,
            condition,
        })
    }
}
