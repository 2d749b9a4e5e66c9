//! What a connection subscribes, and its filters.

ghost use Rattle.std.specs.Prelude.{◌≡◌, IfOk, if◌then◌else◌};
ghost use Rattle.std.specs.Option.{option_copied};
ghost use Rattle.fs_cmd.specs.declared.command.Form.TheVariants as form;
ghost use Rattle.fs_cmd.specs.Frames as texts;
ghost use Rattle.fs_filter.specs.Subscriptions.{cleared};
ghost use Rattle.fs_state.specs.Drafts.{drafted, Brings};
ghost use Rattle.fs_machine.specs.Commands as spec;
ghost use Rattle.fs_machine.specs.Connections as connections;

use crate::replies::give_reply;
use fs_cmd::{Form, filter_added, filter_deleted};
use fs_filter::SharedSubs;
use fs_state::{Conn, Draft};
use fs_text::Memory;

/// Subscribes events by their names, if they are to be told in plain text.
#[tactic(auto, unfolding(fs_cmd::specs::Frames::format_unsupported))]
pub(crate) fn subscribe(
    draft: &mut Draft<'_>,
    conn: u32,
    form: Form,
    names: &[u8],
) -> Result<(), Memory>
    ensures { Brings result draft.old draft.new (spec.after_subscribing conn form names.now (drafted draft.old)) }
{
    match form {
        Form::Plain => subscribe_plain(draft, conn, names),
        Form::Json | Form::Xml => give_reply(draft, conn, b"-ERR event format not supported"),
    }
}

// Subscribes events that are to be told in plain text.
#[tactic(auto, using(crate::proofs::AskingLemmas::asked_as), unfolding(fs_cmd::specs::Frames::event_enabled))]
fn subscribe_plain(draft: &mut Draft<'_>, conn: u32, names: &[u8]) -> Result<(), Memory>
    ensures { Brings result draft.old draft.new (spec.after_subscribing conn form.Plain names.now (drafted draft.old)) }
{
    let mut subs = copy_subs(draft, conn)?;
    let known = subs.subscribe(draft.alloc(), names)?;
    let text = text_if(known, b"+OK event listener enabled plain");
    change_subs(draft, conn, subs, text)
}

/// Takes events out again by their names.
#[tactic(auto, using(crate::proofs::AskingLemmas::asked_as), unfolding(fs_cmd::specs::Frames::event_disabled))]
pub(crate) fn unsubscribe(draft: &mut Draft<'_>, conn: u32, names: &[u8]) -> Result<(), Memory>
    ensures { Brings result draft.old draft.new (spec.after_unsubscribing conn names.now (drafted draft.old)) }
{
    let mut subs = copy_subs(draft, conn)?;
    let known = subs.nix(draft.alloc(), names)?;
    let text = text_if(known, b"+OK event listener disabled");
    change_subs(draft, conn, subs, text)
}

// A reply's text, or that no known name was named.
#[tactic(auto, unfolding(fs_cmd::specs::Frames::no_keywords))]
fn text_if<'a>(known: bool, text: &'a [u8]) -> &'a [u8]
    ensures { result.now ≡ (if known then text.now else texts.no_keywords) }
{
    if known {
        text
    } else {
        b"-ERR no keywords supplied"
    }
}

/// Tells a connection of no further event; its filters stay.
#[tactic(auto, unfolding(fs_cmd::specs::Frames::not_listening))]
pub(crate) fn fall_silent(draft: &mut Draft<'_>, conn: u32) -> Result<(), Memory>
    ensures { Brings result draft.old draft.new (spec.after_silence conn (drafted draft.old)) }
{
    if !is_listening(draft, conn) {
        return give_reply(draft, conn, b"-ERR not listening for events");
    }
    clear_subs(draft, conn)
}

// Whether a connection subscribed a known name, if it is there.
fn is_listening(draft: &Draft<'_>, conn: u32) -> bool
    ensures { result ≡ (connections.subs_at (drafted draft.now) conn).listening }
{
    match draft.conn(conn) {
        Some(there) => there.subs.listening(),
        None => false,
    }
}

// Tells a connection that subscribed events of none.
#[tactic(auto, using(crate::proofs::AskingLemmas::asked_as), unfolding(fs_cmd::specs::Frames::no_longer_listening))]
fn clear_subs(draft: &mut Draft<'_>, conn: u32) -> Result<(), Memory>
    ensures { Brings result draft.old draft.new
        (spec.after_asking conn cleared texts.no_longer_listening (drafted draft.old)) }
{
    let mut subs = copy_subs(draft, conn)?;
    subs.clear(draft.alloc())?;
    change_subs(draft, conn, subs, b"+OK no longer listening for events")
}

/// Adds a filter.
#[tactic(auto, using(crate::proofs::AskingLemmas::asked_as))]
pub(crate) fn add_filter(
    draft: &mut Draft<'_>,
    conn: u32,
    header: &[u8],
    value: &[u8],
) -> Result<(), Memory>
    ensures { Brings result draft.old draft.new
        (spec.after_asking conn (spec.with_filter_added header.now value.now)
        (texts.filter_added header.now value.now) (drafted draft.old)) }
{
    let mut subs = copy_subs(draft, conn)?;
    subs.add_filter(draft.alloc(), header, value)?;
    let text = filter_added(draft.alloc(), header, value)?;
    change_subs(draft, conn, subs, text.as_bytes())
}

/// Takes out the filters of a header, or those with a value.
#[tactic(auto, using(crate::proofs::AskingLemmas::asked_as), unfolding(fs_cmd::specs::Frames::filter_not_found))]
pub(crate) fn delete_filters(
    draft: &mut Draft<'_>,
    conn: u32,
    header: &[u8],
    value: Option<&[u8]>,
) -> Result<(), Memory>
    ensures { Brings result draft.old draft.new
        (spec.after_deletion conn header.now (option_copied value.entry) (drafted draft.old)) }
{
    let mut subs = copy_subs(draft, conn)?;
    if !subs.delete_filter(draft.alloc(), header, value)? {
        return give_reply(draft, conn, b"-ERR filter not found");
    }
    let text = filter_deleted(draft.alloc(), header, value)?;
    change_subs(draft, conn, subs, text.as_bytes())
}

/// Replies that a part of a filter is missing.
#[tactic(auto, unfolding(fs_cmd::specs::Frames::invalid_syntax))]
pub(crate) fn refuse_filter(draft: &mut Draft<'_>, conn: u32) -> Result<(), Memory>
    ensures { Brings result draft.old draft.new (spec.with_reply conn texts.invalid_syntax (drafted draft.old)) }
{
    give_reply(draft, conn, b"-ERR invalid syntax")
}

// What a connection subscribed, once more; nothing where it is not there.
fn copy_subs(draft: &Draft<'_>, conn: u32) -> Result<SharedSubs, Memory>
    ensures { IfOk result (λ subs. subs ≡ connections.subs_at (drafted draft.now) conn) }
{
    match draft.conn(conn) {
        Some(there) => there.subs.copy(),
        None => Ok(SharedSubs::nothing()),
    }
}

// A connection has subscribed this in the place of what it had, and is told so.
fn change_subs(
    draft: &mut Draft<'_>,
    conn: u32,
    subs: SharedSubs,
    text: &[u8],
) -> Result<(), Memory>
    ensures { Brings result draft.old draft.new (spec.with_reply conn text.now
        (connections.conn_changed (connections.with_subs subs) conn (drafted draft.old))) }
{
    put_subs(draft, conn, subs)?;
    give_reply(draft, conn, text)
}

// A connection, if it is there, has subscribed this in the place of what it had.
fn put_subs(draft: &mut Draft<'_>, conn: u32, subs: SharedSubs) -> Result<(), Memory>
    ensures { Brings result draft.old draft.new
        (connections.conn_changed (connections.with_subs subs) conn (drafted draft.old)) }
{
    let Some(there) = draft.conn(conn) else {
        return Ok(());
    };
    let changed = Conn {
        phase: there.phase,
        owed: there.owed,
        parting: there.parting,
        control: there.copy_control()?,
        subs,
    };
    draft.set_conn(conn, changed)
}
