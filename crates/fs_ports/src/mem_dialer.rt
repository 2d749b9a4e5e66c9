//! A dialer in memory.

ghost use Rattle.std.specs.Prelude.{◌≡◌, All, IfOk};
ghost use Rattle.fs_ports.specs.Memory.{IsNewTape, new_queue};

use crate::counts::raised;
use crate::dialer::{Dialed, Dialer};
use crate::mem_link::MemLink;
use crate::mem_links::MemLinks;
use fs_text::{Memory, Txt};
use std::alloc::Global;
use std::marker::Model;

/// A dialer in memory, which hands out links in order. Dials that are to fail are named by their numbers, counted
/// from 1.
#[derive(Drop)]
pub struct MemDialer {
    alloc: Global,
    links: MemLinks,
    failed: Vec<u64>,
    dials: u64,
    faults: u64,
}

impl Model for MemDialer {
    ghost use Rattle.std.specs.Prelude.{All};
    ghost use Rattle.fs_ports.specs.Memory.{Queue, IsNewTape};

    ghost Value = { Queue };

    ghost view = { λ d. record { links = d.links; faults = d.faults } };

    ghost invariant = { λ d. All IsNewTape d.links };
}

impl MemDialer {
    /// A dialer of these links. A dial behind the last one fails.
    pub fn new(alloc: Global, links: MemLinks, failed: &[u64]) -> Result<MemDialer, Memory>
        requires { All IsNewTape links }
        ensures { IfOk result (λ dialer. dialer ≡ new_queue links) }
    {
        Ok(MemDialer {
            alloc,
            links,
            failed: Vec::from_slice(alloc, failed)?,
            dials: 0,
            faults: 0,
        })
    }
}

impl Dialer for MemDialer {
    type Link = MemLink;

    ghost dial_faults = { λ dialer. dialer.faults };

    fn dial(&mut self, _host: &Txt, _port: u16) -> Dialed<MemLink> {
        self.dials = raised(self.dials);
        if !self.failed.contains(&self.dials) {
            if let Some(link) = self.links.take_first() {
                return Dialed::Link(link);
            }
        }
        self.faults = raised(self.faults);
        Dialed::Failed
    }

    fn twin(&self) -> Result<MemDialer, Memory>
        ensures { IfOk result (λ twin. twin ≡ self.now) }
    {
        Ok(MemDialer {
            alloc: self.alloc,
            links: self.links.copy(self.alloc)?,
            failed: Vec::from_slice(self.alloc, &self.failed)?,
            dials: self.dials,
            faults: self.faults,
        })
    }
}
