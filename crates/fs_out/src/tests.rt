//! Targets, a reply and dials, with answers that were worked out by hand.

use crate::{Target, TargetFault, dial, greeting};
use fs_chan::{Chan, Direction, SharedProfile, SharedVars};
use fs_ports::{Dialed, MemDialer, MemLink, MemLinks};
use fs_text::{Memory, Txt};
use fs_vars::{Bounds, Profile, Vars};
use std::alloc::Global;
use std::test::Fail;

/// Texts with the host, the port, and whether `full` is among their words.
const TARGETS: [(&str, &str, u16, bool); 7] = [
    ("127.0.0.1:9999 async full", "127.0.0.1", 9_999, true),
    ("h:80", "h", 80, false),
    ("::1:8084 x", "::1", 8_084, false),
    ("h:0080", "h", 80, false),
    ("  h:80   full", "h", 80, true),
    ("h:1 fuller", "h", 1, false),
    ("full:65535", "full", 65_535, false),
];

/// Texts that say no target, and why.
const FAULTS: [(&str, TargetFault); 10] = [
    ("host", TargetFault::NoPort),
    ("", TargetFault::NoPort),
    ("host h:80", TargetFault::NoPort),
    ("host:", TargetFault::BadPort),
    ("host:0", TargetFault::BadPort),
    ("host:65536", TargetFault::BadPort),
    (":", TargetFault::BadPort),
    ("h:80x", TargetFault::BadPort),
    ("h:80\tfull", TargetFault::BadPort),
    (":80", TargetFault::NoHost),
];

#[test]
fn targets_are_read(rt: HostRuntime) -> Result<(), Fail> {
    for (text, host, port, full) in TARGETS {
        let target = Target::of(rt.alloc(), text.as_bytes())?;
        assert_eq!(rt; target.host.as_bytes(), host.as_bytes(), "{text}");
        assert_eq!(rt; (target.port, target.full), (port, full), "{text}");
    }
    for (text, fault) in FAULTS {
        assert_eq!(rt;
            fault_of(rt.alloc(), text.as_bytes()),
            Some(fault),
            "{text}"
        );
    }
    Ok(())
}

fn fault_of(alloc: Global, text: &[u8]) -> Option<TargetFault> {
    match Target::of(alloc, text) {
        Ok(_target) => None,
        Err(fault) => Some(fault),
    }
}

/// The reply for a new channel, of which some fields are empty.
const REPLY: &str = "Content-Type: command/reply\nReply-Text: +OK\n\
Channel-State: CS_NEW\nChannel-State-Number: 0\nUnique-ID: u-1\nCall-Direction: inbound\nAnswer-State: ringing\n\
Caller-Caller-ID-Name: Al%20B\nCaller-Destination-Number: %2B1000\n\
variable_my%20name: a%3Ab\nvariable_next: 1\n\
Socket-Mode: async\nControl: single-channel\n\n";

#[test]
fn a_channel_is_told(rt: HostRuntime) -> Result<(), Fail> {
    let target = Target::of(rt.alloc(), b"h:80 async")?;
    let reply = greeting(rt.alloc(), &channel(rt.alloc())?, &target)?;
    assert_eq!(rt; reply.as_bytes(), REPLY.as_bytes());
    Ok(())
}

fn channel(alloc: Global) -> Result<Chan, Memory> {
    let mut profile = Profile::empty(alloc)?;
    profile.caller_id_name = Txt::of(alloc, b"Al B")?;
    profile.destination_number = Txt::of(alloc, b"+1000")?;
    let profile = SharedProfile::of(alloc, profile)?;
    let mut vars = Vars::new(alloc, Bounds::Channel)?;
    vars.set(b"my name", b"a:b")?;
    vars.set(b"next", b"1")?;
    let vars = SharedVars::of(alloc, vars)?;
    let uuid = Txt::of(alloc, b"u-1")?;
    Ok(Chan::new(uuid, 0, Direction::Inbound, profile, vars))
}

#[test]
fn a_target_is_dialed(rt: HostRuntime) -> Result<(), Fail> {
    let mut links = Vec::new(rt.alloc());
    links.push(MemLink::new(rt.alloc(), b"", &[], &[], &[], 0)?)?;
    let mut dialer = MemDialer::new(rt.alloc(), MemLinks::from_vec(links), &[])?;
    let target = Target::of(rt.alloc(), b"h:80")?;
    assert!(rt; is_link(dial(&mut dialer, &target)));
    assert!(rt; !is_link(dial(&mut dialer, &target)));
    Ok(())
}

fn is_link(dialed: Dialed<MemLink>) -> bool {
    match dialed {
        Dialed::Link(_link) => true,
        Dialed::Failed => false,
    }
}
