//! Who calls by an origination.

ghost use Rattle.std.specs.Prelude.{◌≡◌, IfOk};

use fs_text::{Memory, Txt};

/// Who calls: the caller id that the legs of an origination are made with.
pub struct Caller {
    pub name: Txt,
    pub number: Txt,
}

impl Drop for Caller {
    fn drop(self) {
        let Caller {
            name: _name,
            number: _number,
        } = self;
    }
}

impl Caller {
    /// Copies the caller.
    pub fn copy(&self) -> Result<Caller, Memory>
        ensures { IfOk result (λ caller. caller ≡ self.now) }
    {
        Ok(Caller {
            name: self.name.copy()?,
            number: self.number.copy()?,
        })
    }
}
