//! Links that came, and wait for a lane.

ghost use Rattle.std.specs.Prelude.{IfSome};
ghost use Rattle.fs_ports.specs.Ports.{IsNewLink};

use fs_ports::Link;
use fs_text::Memory;
use std::alloc::Global;
use std::marker::Model;
use std::sync::{Mutex, Wait};

/// Links of which nothing was taken and to which nothing was written, in the order in which they came.
#[derive(Drop)]
pub(crate) struct NewLinks<L: Link> {
    links: Vec<L>,
}

impl<L: Link> Model for NewLinks<L> {
    ghost use Rattle.std.specs.Prelude.{List};
    ghost use Rattle.std.specs.List.{All};
    ghost use Rattle.fs_ports.specs.Ports.{IsNewLink};

    ghost Value = { List L };

    ghost view = { λ l. l.links.items };

    ghost invariant = { λ l. All (λ link. IsNewLink (L.input link) (L.output link)) l.links.items };
}

impl<L: Link> NewLinks<L> {
    fn push(&mut self, link: L) -> Result<(), Memory>
        requires { IsNewLink (L.input link) (L.output link) }
    {
        self.links.push(link)?;
        Ok(())
    }

    fn take(&mut self) -> Option<L>
        ensures { IfSome result (λ link. IsNewLink (L.input link) (L.output link)) }
    {
        if self.links.is_empty() {
            return None;
        }
        Some(self.links.remove(0))
    }
}

/// The links that came, for the lanes and whoever accepts.
#[derive(Drop)]
pub(crate) struct Came<L: Link> {
    links: Mutex<NewLinks<L>>,
}

impl<L: Link> Came<L> {
    /// No links.
    pub(crate) fn new(alloc: Global) -> Came<L> {
        Came {
            links: Mutex::new(NewLinks {
                links: Vec::new(alloc),
            }),
        }
    }

    /// Puts a new link behind the others. Where there is no memory for it, it is dropped.
    pub(crate) fn push<R: Wait>(&self, rt: &R, link: L) -> Result<(), Memory>
        requires { IsNewLink (L.input link) (L.output link) }
    {
        self.links.lock(rt).push(link)
    }

    /// Takes the first link out, if there is one.
    pub(crate) fn take<R: Wait>(&self, rt: &R) -> Option<L>
        ensures { IfSome result (λ link. IsNewLink (L.input link) (L.output link)) }
    {
        self.links.lock(rt).take()
    }
}
