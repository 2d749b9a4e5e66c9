//! What the words of the command line ask for.

ghost use Rattle.std.specs.Prelude.{◌≡◌};
ghost use Rattle.std.specs.Option.{option_map, option_copied};
ghost use Rattle.fs_top.specs.Told as told;
ghost use Rattle.fs_top.specs.Reading.{asked_seen};

use fs_text::{Txt, read_u64};

/// The most calls of a load.
const MOST_CALLS: u64 = 100_000;

/// What the words of the command line ask for.
#[derive(Clone, Copy)]
pub(crate) enum Asked<'a> {
    /// The numbers of contexts and extensions of a document are printed.
    Check {
        file: &'a Txt,
    },
    /// The actions of a call to a number in a context are printed.
    Hunt {
        file: &'a Txt,
        context: &'a Txt,
        dest: &'a Txt,
    },
    /// One connection is played.
    Play {
        file: &'a Txt,
    },
    /// So many calls are played, made from this number on, and what happened is counted.
    Load {
        count: u64,
        start: u64,
    },
}

impl<'a> Asked<'a> {
    /// What the words ask for, if they have a form.
    pub(crate) fn of(words: &'a [Txt]) -> Option<Asked<'a>>
        ensures { option_map asked_seen result ≡ told.asked_by words.now }
    {
        match words {
            [word, file] if word.as_bytes() == b"check".as_slice() => Some(Asked::Check { file }),
            [word, file] if word.as_bytes() == b"play".as_slice() => Some(Asked::Play { file }),
            [word, count, start] if word.as_bytes() == b"load".as_slice() => {
                Asked::load(read_u64(count.as_bytes())?, read_u64(start.as_bytes())?)
            }
            [word, file, context, dest] if word.as_bytes() == b"hunt".as_slice() => {
                Some(Asked::Hunt {
                    file,
                    context,
                    dest,
                })
            }
            _ => None,
        }
    }

    // A load of so many calls, unless they are none or too many.
    fn load(count: u64, start: u64) -> Option<Asked<'a>>
        ensures { option_map asked_seen result ≡ told.load_asked count start }
    {
        if (1..=MOST_CALLS).contains(&count) {
            Some(Asked::Load { count, start })
        } else {
            None
        }
    }

    /// The name of the file, if there is one.
    pub(crate) fn file(self) -> Option<&'a Txt>
        ensures { option_copied result ≡ told.file_asked (asked_seen self.entry) }
    {
        match self {
            Asked::Check { file } | Asked::Hunt { file, .. } | Asked::Play { file } => Some(file),
            Asked::Load { .. } => None,
        }
    }
}
