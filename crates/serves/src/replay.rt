//! A journal is played again.

use crate::again::enter_again;
use fs_doc::read_config;
use fs_machine::{Act, Journal, Machine, Reply};
use fs_plan::Dialplan;
use fs_ports::{MemFiles, MemLink};
use fs_text::Memory;
use fs_top::Conn;
use std::alloc::Global;

/// What comes of it.
#[derive(Clone, Copy, Debug, PartialEq, Eq)]
pub(crate) enum Played {
    /// Each entry is taken, and what was written to each link is a front of what its entries hand out.
    AsTold,
    Otherwise,
}

/// Plays a journal again over a machine of its own, for each connection.
pub(crate) fn played_again(
    alloc: Global,
    file: &[u8],
    journal: &Journal,
    conns: &[Conn<MemLink>],
) -> Result<Played, Memory> {
    for conn in conns {
        match handed_out(alloc, file, journal, conn.number)? {
            Some(bytes) if bytes.starts_with(conn.link.written()) => {}
            _ => return Ok(Played::Otherwise),
        }
    }
    Ok(Played::AsTold)
}

// What the entries of a journal hand out to a connection, if each of them is taken.
fn handed_out(
    alloc: Global,
    file: &[u8],
    journal: &Journal,
    number: u32,
) -> Result<Option<Vec<u8>>, Memory> {
    let Some(mut machine) = machine_of(alloc, file)? else {
        return Ok(None);
    };
    let mut bytes = Vec::new(alloc);
    for entry in journal.entries() {
        match (enter_again(&mut machine, entry, alloc), &entry.act) {
            (Ok(Reply::Frame(frame)), Act::Take { conn }) if *conn == number => {
                bytes.extend_from_slice(frame.as_bytes())?;
            }
            (Ok(_), _) => {}
            (Err(_), _) => return Ok(None),
        }
    }
    Ok(Some(bytes))
}

// A machine of the document in these bytes.
fn machine_of(alloc: Global, file: &[u8]) -> Result<Option<Machine>, Memory> {
    let mut patterns = MemFiles::new(alloc, &[], &[], &[])?;
    let Ok(config) = read_config(alloc, file) else {
        return Ok(None);
    };
    let Ok(plan) = Dialplan::build(alloc, &config, &mut patterns) else {
        return Ok(None);
    };
    Ok(Some(Machine::new(alloc, config, plan)?))
}
