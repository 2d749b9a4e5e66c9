//! What is noted of a load.

ghost use Rattle.std.specs.Prelude.{◌≡◌, IfOk};
ghost use Rattle.fs_machine.specs.Entries.{document_of};

use fs_text::{Memory, Txt};

/// What is noted of a load of the file that a switch was configured by.
pub enum LoadNote {
    /// These bytes are a document, and its patterns were built.
    Ready(Txt),
    /// These bytes are no document.
    DocRefused(Txt),
    /// They are one, and the pattern of this condition of this extension is none, or is nested too deep. Extensions are
    /// counted over the document and conditions within the extension, both from 1.
    PatternRefused {
        text: Txt,
        extension: u32,
        condition: u32,
    },
    /// They are one, and that pattern is too large.
    PatternTooLarge {
        text: Txt,
        extension: u32,
        condition: u32,
    },
    /// There is no such file.
    Absent,
    /// The file could not be read.
    Failed,
}

impl Drop for LoadNote {
    fn drop(self) {
        match self {
            LoadNote::Ready(_text) => {}
            LoadNote::DocRefused(_text) => {}
            LoadNote::PatternRefused {
                text: _text,
                extension: _extension,
                condition: _condition,
            } => {}
            LoadNote::PatternTooLarge {
                text: _text,
                extension: _extension,
                condition: _condition,
            } => {}
            LoadNote::Absent => {}
            LoadNote::Failed => {}
        }
    }
}

impl LoadNote {
    /// The bytes of the document that was loaded; none where no file was read.
    pub fn document(&self) -> &[u8]
        ensures { result.now ≡ document_of self.now }
    {
        match self {
            LoadNote::Ready(text) => text.as_bytes(),
            LoadNote::DocRefused(text) => text.as_bytes(),
            LoadNote::PatternRefused { text, .. } => text.as_bytes(),
            LoadNote::PatternTooLarge { text, .. } => text.as_bytes(),
            LoadNote::Absent | LoadNote::Failed => b"",
        }
    }

    /// The same once more.
    pub fn copy(&self) -> Result<LoadNote, Memory>
        ensures { IfOk result (λ note. note ≡ self.now) }
    {
        Ok(match self {
            LoadNote::Ready(text) => LoadNote::Ready(text.copy()?),
            LoadNote::DocRefused(text) => LoadNote::DocRefused(text.copy()?),
            LoadNote::PatternRefused {
                text,
                extension,
                condition,
            } => LoadNote::PatternRefused {
                text: text.copy()?,
                extension: *extension,
                condition: *condition,
            },
            LoadNote::PatternTooLarge {
                text,
                extension,
                condition,
            } => LoadNote::PatternTooLarge {
                text: text.copy()?,
                extension: *extension,
                condition: *condition,
            },
            LoadNote::Absent => LoadNote::Absent,
            LoadNote::Failed => LoadNote::Failed,
        })
    }
}
