//! What tests of a condition find.

ghost use Rattle.std.specs.Prelude.{◌≡◌, ◌<◌};

use crate::groups::Groups;

/// What a test found: whether it holds, and the groups of the match, if there are any.
#[derive(Drop)]
pub(crate) struct Tested {
    pub holds: bool,
    pub groups: Option<Groups>,
}

impl Tested {
    /// A test without a pattern.
    pub fn plain(holds: bool) -> Tested
        ensures { result ≡ record { holds = holds; groups = None } }
    {
        Tested {
            holds,
            groups: None,
        }
    }
}

/// How many of several tests matched, and the groups of the last one that did.
#[derive(Drop)]
pub(crate) struct Count {
    pub matched: usize,
    pub groups: Option<Groups>,
}

impl Count {
    ghost use Rattle.fs_plan.specs.Hunting.{no_count, count_with};

    /// No test has matched yet.
    pub fn none() -> Count
        ensures { result ≡ no_count }
    {
        Count {
            matched: 0,
            groups: None,
        }
    }

    /// Counts one more test.
    pub fn add(&mut self, tested: Tested)
        requires { self.old.matched < usize.MAX }
        ensures { self.new ≡ count_with self.old tested }
    {
        if tested.holds {
            self.matched += 1;
            self.groups = tested.groups;
        }
    }
}
