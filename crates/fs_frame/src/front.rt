//! What stands in front of some bytes.

ghost use Rattle.std.specs.Prelude.{◌≡◌, ◌≤◌, ℕ, List, length};
ghost use Rattle.fs_frame.specs.Block.{head_in_front};
ghost use Rattle.fs_frame.specs.Front.{IsCommandAt, IsFound, IsFront, IsLookedAt, IsScanned, within_reach};

use crate::block::Block;
use crate::fault::Fault;
use crate::length::{Declared, declared_in};
use crate::scan::{Found, Scan, next_line};
use crate::span::CommandLine;

/// How many bytes a block may have.
const MOST_BYTES: usize = 65_536;

/// What is known of the front of some bytes.
#[derive(Clone, Copy)]
pub enum Front {
    /// No head was found. A search of more bytes goes on from here.
    Open { scan: Scan },
    /// A head stands there, whose block has so many bytes in all.
    Headed { len: usize, command: CommandLine },
    /// No block stands there, and none can come.
    Spoilt { fault: Fault },
}

/// What was taken from the front of some bytes.
#[derive(Clone, Copy)]
pub enum Taken {
    /// The block in front, whose command line stands there.
    Whole { command: CommandLine },
    /// Nothing: the block in front is not whole yet.
    Nothing,
    /// Nothing: no block can come.
    Spoilt { fault: Fault },
}

impl Front {
    /// Nothing is known.
    pub fn unseen() -> Front
        ensures { result ≡ Front.Open (record { passed = 0; searched = 0; command = None }) }
    {
        Front::Open {
            scan: Scan::at(0, None),
        }
    }
}

/// What stands in front of the bytes, of which so much is known.
pub fn look(bytes: &[u8], known: Front) -> Front
    requires { IsFront bytes.now known }
    ensures { IsLookedAt bytes.now result }
{
    match known {
        Front::Open { scan } => look_on(bytes, scan),
        _ => known,
    }
}

// What stands in front of the bytes, of which a search came so far.
fn look_on(bytes: &[u8], scan: Scan) -> Front
    requires { IsScanned (within_reach bytes.now) scan }
    ensures { IsLookedAt bytes.now result }
{
    let end = bytes.len().min(MOST_BYTES);
    match search(&bytes[..end], scan) {
        Found::Head { len, command } => behind_head(&bytes[..len], command),
        Found::Open { .. } if bytes.len() > MOST_BYTES => Front::Spoilt {
            fault: Fault::TooLong {
                len: MOST_BYTES as u64 + 1,
            },
        },
        Found::Open { scan } => Front::Open { scan },
    }
}

// What stands in front of bytes that begin with this head.
fn behind_head(head: &[u8], command: CommandLine) -> Front
    requires within { length head.now ≤ 65536 }
    requires command { IsCommandAt head.now command }
    ensures { (bytes : List ℕ) → head_in_front bytes ≡ Some head.now → IsLookedAt bytes result }
{
    let Declared::Length(body) = declared_in(&Block::cut(head, command)) else {
        return Front::Spoilt {
            fault: Fault::BadLength,
        };
    };
    let len = head.len() as u64 + body;
    if len > MOST_BYTES as u64 {
        return Front::Spoilt {
            fault: Fault::TooLong { len },
        };
    }
    Front::Headed {
        len: len as usize,
        command,
    }
}

// What a search of all the bytes finds, where it came so far.
fn search(bytes: &[u8], scan: Scan) -> Found
    requires { IsScanned bytes.now scan }
    ensures { IsFound bytes.now result }
{
    let mut scan = scan;
    while let Some(line) = next_line(&bytes[scan.passed..], scan.searched) {
        match scan.behind(line) {
            Found::Open { scan: behind } => scan = behind,
            head => return head,
        }
    }
    Found::Open {
        scan: Scan {
            searched: bytes.len() - scan.passed,
            ..scan
        },
    }
}
