//! What a link in memory raises.

use crate::flag::Flag;
use fs_text::Memory;

/// A flag goes up when so many bytes were written.
#[derive(Drop)]
pub(crate) struct Raise {
    at: usize,
    flag: Flag,
}

impl Raise {
    pub(crate) fn new(at: usize, flag: Flag) -> Raise {
        Raise { at, flag }
    }

    fn copy(&self) -> Result<Raise, Memory> {
        Ok(Raise {
            at: self.at,
            flag: self.flag.twin()?,
        })
    }
}

/// Raises the flag if so many bytes are enough.
pub(crate) fn written(raise: &Option<Raise>, count: usize) {
    if let Some(raise) = raise {
        if raise.at <= count {
            raise.flag.raise();
        }
    }
}

/// The same, with the same flag.
pub(crate) fn copied(raise: &Option<Raise>) -> Result<Option<Raise>, Memory> {
    match raise {
        Some(raise) => Ok(Some(raise.copy()?)),
        None => Ok(None),
    }
}
