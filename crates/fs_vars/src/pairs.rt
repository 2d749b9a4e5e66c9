//! The variables, one after another.
ghost use Rattle.std.specs.Iterator.{at_most};
ghost use Rattle.std.specs.Prelude.{length};
ghost use Rattle.std.specs.Map.Iter.{TakesFirst};

use fs_text::Txt;
use indexmap::map::Iter;
use std::marker::Model;

/// Names with their values, in the order in which the names were first set.
#[derive(Drop)]
pub struct VarsIter<'a> {
    entries: Iter<'a, Vec<u8>, Txt>,
}

impl<'a> Model for VarsIter<'a> {
    ghost use Rattle.fs_vars.specs.Pairs.{Pairs, pairs_of};

    ghost Value = { Pairs };

    ghost view = { λ i. pairs_of i.entries };
}

impl<'a> VarsIter<'a> {
    ghost use Rattle.std.specs.Prelude.{◌≡◌};
    ghost use Rattle.fs_vars.specs.Pairs.{pairs_of};

    /// These entries, one after another.
    pub(crate) fn over(entries: Iter<'a, Vec<u8>, Txt>) -> VarsIter<'a>
        ensures { result ≡ pairs_of entries.entry }
    {
        VarsIter { entries }
    }
}

impl<'a> Iterator for VarsIter<'a> {
    type Item = (&'a [u8], &'a Txt);

    ghost next_gives = { TakesFirst (λ item. (item.0.now, item.1.now)) };

    ghost remaining = { λ s. at_most (length s) };

    fn next(&mut self) -> Option<(&'a [u8], &'a Txt)> {
        let (name, value) = self.entries.next()?;
        Some((name.as_slice(), value))
    }
}
