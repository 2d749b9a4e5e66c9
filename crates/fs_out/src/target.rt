//! Where a controller is dialed, as the argument of `socket` says it.

ghost use Rattle.std.specs.Prelude.{◌≡◌, ◌≢◌, Err, option_map};
ghost use Rattle.std.specs.List.{list_any};
ghost use Rattle.fs_out.specs.declared.fault.TargetFault.TheVariants as fault;
ghost use Rattle.fs_out.specs.Targets as spec;

use crate::fault::TargetFault;
use fs_text::{Txt, cut_word, read_u64, without_spaces};
use memchr::memrchr;
use std::alloc::Global;

/// The last port.
const LAST_PORT: u64 = 65_535;

/// Where a controller is dialed, and what it may do there.
#[derive(Drop)]
pub struct Target {
    /// The name or the address of its host, as it was written.
    pub host: Txt,
    pub port: u16,
    /// Whether it may command more than the channel that it is dialed for.
    pub full: bool,
}

impl Target {
    /// The target that the argument of the application `socket` says: `HOST:PORT`, and then `async` or `full`, as the
    /// documentation of FreeSWITCH's outbound event socket has it.
    ///
    /// Words are separated by runs of spaces, and spaces in front are skipped. The port of the first word stands behind
    /// its last colon. Of the words behind it `full` counts, and all others are ignored, `async` too.
    pub fn of(alloc: Global, text: &[u8]) -> Result<Target, TargetFault>
        ensures { result ≢ Err fault.Memory → result ≡ spec.target_of text.now }
    {
        let (address, modes) = cut_word(without_spaces(text));
        Target::at(alloc, address, modes)
    }

    /// The target that an address and the words behind it say.
    fn at(alloc: Global, address: &[u8], modes: &[u8]) -> Result<Target, TargetFault>
        ensures { result ≢ Err fault.Memory
            → result ≡ spec.target_by (spec.parts_of address.now) (spec.words_of modes.now) }
    {
        let Some((host, port)) = parts_of(address) else {
            return Err(TargetFault::NoPort);
        };
        let Some(port) = port_of(port) else {
            return Err(TargetFault::BadPort);
        };
        if host.is_empty() {
            return Err(TargetFault::NoHost);
        }
        let host = Txt::of(alloc, host)?;
        let full = has_full(modes);
        Ok(Target { host, port, full })
    }
}

/// What stands before and behind the last colon, if there is one.
#[tactic(auto, unfolding(crate::specs::Targets::parts_of))]
fn parts_of(address: &[u8]) -> Option<(&[u8], &[u8])>
    ensures { option_map (λ parts. (parts.0.now, parts.1.now)) result ≡ spec.parts_of address.now }
{
    let colon = memrchr(b':', address)?;
    Some((&address[..colon], &address[colon + 1..]))
}

/// The port that a text says, if it says one.
fn port_of(text: &[u8]) -> Option<u16>
    ensures { result ≡ spec.port_of text.now }
{
    match read_u64(text) {
        Some(port) if 1 <= port && port <= LAST_PORT => Some(port as u16),
        _ => None,
    }
}

/// Whether `full` stands among words.
fn has_full(words: &[u8]) -> bool
    ensures { result ≡ list_any spec.is_full (spec.words_of words.now) }
{
    words
        .split(|byte| *byte == b' ')
        .any(|word| word == b"full".as_slice())
}
