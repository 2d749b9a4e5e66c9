//! Links in memory, in a list.

ghost use Rattle.std.specs.Prelude.{◌≡◌, ◌∷◌, MatchOption, IfOk};

use crate::mem_link::MemLink;
use fs_text::Memory;
use std::alloc::Global;
use std::marker::Model;

/// Links in memory, in a list.
#[derive(Drop)]
pub struct MemLinks {
    links: Vec<MemLink>,
}

impl Model for MemLinks {
    ghost use Rattle.std.specs.Prelude.{List};
    ghost use Rattle.fs_ports.specs.Memory.{Tape};

    ghost Value = { List Tape };

    ghost view = { λ l. l.links.items };
}

impl MemLinks {
    /// The links of this list.
    pub fn from_vec(links: Vec<MemLink>) -> MemLinks
        ensures { result ≡ links.items }
    {
        MemLinks { links }
    }

    /// The links as a list.
    pub fn into_vec(self) -> Vec<MemLink>
        ensures { result.items ≡ self }
    {
        let MemLinks { links } = self;
        links
    }

    // Takes the first link out, if there is one.
    #[tactic(auto, using(crate::proofs::Firsts::first_rules))]
    pub(crate) fn take_first(&mut self) -> Option<MemLink>
        ensures { MatchOption result (self.new ≡ self.old) (λ link. self.old ≡ link ∷ self.new) }
    {
        if self.links.is_empty() {
            return None;
        }
        Some(self.links.remove(0))
    }

    // Links that stand where these do, with the same flags.
    pub(crate) fn copy(&self, alloc: Global) -> Result<MemLinks, Memory>
        ensures { IfOk result (λ links. links ≡ self.now) }
    {
        Ok(MemLinks {
            links: copies(alloc, &self.links)?,
        })
    }
}

// Copies links.
fn copies(alloc: Global, links: &[MemLink]) -> Result<Vec<MemLink>, Memory>
    ensures { IfOk result (λ copied. copied.items ≡ links.now) }
{
    let mut copied = Vec::with_capacity(alloc, links.len())?;
    for link in links {
        copied.push(link.copy()?)?;
    }
    Ok(copied)
}
