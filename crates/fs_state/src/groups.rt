//! The groups that an origination tries.

ghost use Rattle.std.specs.Prelude.{◌≡◌, IfOk};
ghost use Rattle.fs_orig.specs.Changes.{at_next_group};
ghost use Rattle.fs_state.specs.Drafts.{drafted, Brings};
ghost use Rattle.fs_state.specs.Moves as spec;

use crate::draft::Draft;
use fs_orig::{Orig, OrigLegs};
use fs_text::Memory;

impl<'a> Draft<'a> {
    /// The origination of a number goes on to its next group, of which these legs were made, where it may.
    pub fn enter_next_group(&mut self, number: u64, legs: OrigLegs) -> Result<(), Memory>
        ensures { Brings result self.old self.new (spec.orig_changed (at_next_group legs) number (drafted self.old)) }
    {
        let Some(orig) = self.orig(number) else {
            return Ok(());
        };
        let orig = with_next_group(orig, legs)?;
        self.set_orig(number, orig)
    }
}

/// An origination at its next group, of which these legs were made, where it may go on.
fn with_next_group(orig: &Orig, legs: OrigLegs) -> Result<Orig, Memory>
    ensures { IfOk result (λ o. o ≡ at_next_group legs orig.now) }
{
    let mut orig = orig.copy()?;
    let _may = orig.enter_next_group(legs);
    Ok(orig)
}
