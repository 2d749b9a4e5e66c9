//! Patterns, and what they find in a value.

ghost use Rattle.std.specs.Prelude.{◌≡◌, IfOk};
ghost use Rattle.fs_plan.specs.Matching as spec;

use crate::fault::Unbuilt;
use crate::groups::Groups;
use crate::tested::Tested;
use fs_lead::Lead;
use fs_ports::{Built, Patterns};
use fs_text::{Memory, Txt};
use regex::bytes::Regex;
use std::alloc::Global;
use std::marker::Model;

/// A pattern that was built. A contract sees it as its text.
pub struct Pattern {
    regex: Regex,
    // What is known of its matches without a search.
    lead: Lead,
}

impl Drop for Pattern {
    fn drop(self) {
        let Pattern {
            regex: _regex,
            lead: _lead,
        } = self;
    }
}

impl Model for Pattern {
    ghost use Rattle.std.specs.Prelude.{ℕ, List};
    ghost use Rattle.regex.specs.Bytes.{regex_source};
    ghost use Rattle.fs_ports.specs.Patterns.{IsBuiltOf};
    ghost use Rattle.fs_lead.specs.Leads.{IsLeadOf};

    ghost Value = { List ℕ };

    ghost view = { λ p. regex_source p.regex };

    ghost invariant = { λ p. IsBuiltOf (regex_source p.regex) p.regex × IsLeadOf (regex_source p.regex) p.lead };
}

impl Pattern {
    ghost use Rattle.std.specs.Prelude.{OnOk, IfErr};
    ghost use Rattle.fs_plan.specs.Building.{CountsUnbuilt, HasReading, IsTextUnbuilt};

    /// Builds the pattern of a text. One that is not UTF-8 is none.
    #[tactic(auto, using(crate::proofs::BuildLemmas::own_built, crate::proofs::BuildLemmas::has_reading))]
    pub(crate) fn build<P: Patterns>(
        alloc: Global,
        text: &Txt,
        patterns: &mut P,
    ) -> Result<Pattern, Unbuilt>
        ensures kept { IfOk result (λ pattern. pattern ≡ text.now) }
        ensures read { OnOk result (HasReading text.now) }
        ensures refused { IfErr result (IsTextUnbuilt text.now) }
        ensures sizes { CountsUnbuilt result (P.sizes patterns.old) (P.sizes patterns.new) }
        ensures files { (P.counts patterns.new ≡ P.counts patterns.old)
            × (P.loads patterns.new ≡ P.loads patterns.old) }
    {
        let Ok(source) = str::from_utf8(text.as_bytes()) else {
            return Err(Unbuilt::NoReading);
        };
        match patterns.build(source) {
            Built::Regex(regex) => {
                let lead = Lead::of(alloc, source)?;
                Ok(Pattern { regex, lead })
            }
            Built::NoReading => Err(Unbuilt::NoReading),
            Built::TooLarge => Err(Unbuilt::TooLarge),
            Built::Memory => Err(Unbuilt::Memory),
        }
    }

    /// What the pattern finds in a value, in bytes. The value is searched only where the lead does not tell.
    pub(crate) fn tested(&self, alloc: Global, value: &[u8]) -> Result<Tested, Memory>
        ensures { IfOk result (λ t. t ≡ spec.tested self.now value.now) }
    {
        match self.lead.tells(value) {
            Some(false) => Ok(Tested::plain(false)),
            Some(true) if self.regex.captures_len() < 2 => Ok(Tested::plain(true)),
            _ => self.searched(alloc, value),
        }
    }

    /// What a search finds in a value. The groups are looked for only where the pattern has any.
    fn searched(&self, alloc: Global, value: &[u8]) -> Result<Tested, Memory>
        ensures { IfOk result (λ t. t ≡ spec.tested self.now value.now) }
    {
        let mut matcher = self.regex.matcher(alloc)?;
        if self.regex.captures_len() < 2 {
            let holds = matcher.is_match(value);
            return Ok(Tested {
                holds,
                groups: None,
            });
        }
        match matcher.captures(value) {
            Some(captures) => {
                let groups = Groups::of(alloc, &captures)?;
                Ok(Tested {
                    holds: true,
                    groups: Some(groups),
                })
            }
            None => Ok(Tested {
                holds: false,
                groups: None,
            }),
        }
    }
}
