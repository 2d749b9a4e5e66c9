//! A flag that threads share.

use fs_text::Memory;
use std::alloc::Global;
use std::sync::Arc;
use std::sync::atomic::{AtomicBool, Ordering};

/// A flag that is down until somebody raises it. It stays up then.
#[derive(Drop)]
pub struct Flag {
    raised: Arc<AtomicBool>,
}

impl Flag {
    /// A flag that is down.
    pub fn new(alloc: Global) -> Result<Flag, Memory> {
        Ok(Flag {
            raised: Arc::new(alloc, AtomicBool::new(false))?,
        })
    }

    /// The same flag, for another thread.
    pub fn twin(&self) -> Result<Flag, Memory> {
        Ok(Flag {
            raised: self.raised.clone()?,
        })
    }

    /// Raises it.
    pub fn raise(&self) {
        self.raised.store(true, Ordering::SeqCst);
    }

    /// Whether it was raised.
    pub fn is_up(&self) -> bool {
        self.raised.load(Ordering::SeqCst)
    }
}
