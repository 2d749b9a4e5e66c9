//! What each act of an entry does to a draft.

ghost use Rattle.std.specs.Prelude.{◌≡◌, false, IfOk};
ghost use Rattle.fs_state.specs.declared.delta.OutboxChange.TheVariants.{Unchanged};
ghost use Rattle.fs_state.specs.Drafts.{drafted, Brings};
ghost use Rattle.fs_machine.specs.Entries.{is_load};
ghost use Rattle.fs_machine.specs.Step as spec;

use crate::commands::do_command;
use crate::connections::part;
use crate::controlling::{controlled_slot, end_dial, let_channel_go, let_go_in, part_left};
use crate::entry::{Act, Closing};
use crate::jobs::do_job;
use crate::questions::owed_to;
use crate::reply::Reply;
use crate::shutdown::shut_down;
use crate::work::work;
use fs_cmd::{Command, auth_request};
use fs_filter::SharedSubs;
use fs_frame::Block;
use fs_plan::Dialplan;
use fs_state::{Conn, Draft, Parting, Phase};
use fs_text::{Memory, Txt};

/// Does an act that notes no load, by the dialplan in force; behind it each connection parts whose channel has left it.
pub(crate) fn do_act(draft: &mut Draft<'_>, dialplan: &Dialplan, act: &Act) -> Result<Reply, Memory>
    requires other { is_load act.now ≡ false }
    requires outbox { draft.old.delta.outbox ≡ Unchanged }
    requires dialplan { dialplan.now ≡ (drafted draft.old).contexts }
    ensures base { draft.new.base ≡ draft.old.base }
    ensures ok { IfOk result (spec.ComesTo (spec.act_done act.now (drafted draft.old)) (drafted draft.new)) }
{
    let reply = act_alone(draft, dialplan, act)?;
    part_left(draft)?;
    Ok(reply)
}

// Does an act by itself.
fn act_alone(draft: &mut Draft<'_>, dialplan: &Dialplan, act: &Act) -> Result<Reply, Memory>
    requires other { is_load act.now ≡ false }
    requires outbox { draft.old.delta.outbox ≡ Unchanged }
    requires dialplan { dialplan.now ≡ (drafted draft.old).contexts }
    ensures base { draft.new.base ≡ draft.old.base }
    ensures ok { IfOk result (spec.ComesTo (spec.acted act.now (drafted draft.old)) (drafted draft.new)) }
{
    match act {
        Act::Arrive => arrive(draft),
        Act::Command { conn, block } => {
            do_command(draft, *conn, Command::of(&Block::of(block.as_bytes())))?;
            let owed = owed_to(draft, *conn).is_some();
            Ok(Reply::Queued { owed })
        }
        Act::Take { conn } => take(draft, *conn),
        Act::Close { conn, how } => {
            close(draft, *conn, *how)?;
            Ok(Reply::Closed)
        }
        Act::Dialed { slot, linked } => Ok(Reply::Dialed(end_dial(draft, *slot, *linked)?)),
        Act::Work { slot } => {
            work(draft, dialplan, *slot)?;
            Ok(Reply::Worked)
        }
        Act::Job { job } => {
            do_job(draft, *job)?;
            Ok(Reply::Worked)
        }
        Act::Loaded { .. } => unreachable!(),
        Act::Halt => {
            shut_down(draft)?;
            Ok(Reply::Halted)
        }
    }
}

// Adds a connection, and asks it for the password.
fn arrive(draft: &mut Draft<'_>) -> Result<Reply, Memory>
    ensures base { draft.new.base ≡ draft.old.base }
    ensures ok { IfOk result (spec.ComesTo (spec.arrived (drafted draft.old)) (drafted draft.new)) }
{
    let number = draft.add_conn(Conn {
        phase: Phase::Fresh,
        owed: None,
        parting: None,
        control: None,
        subs: SharedSubs::nothing(),
    })?;
    let request = auth_request(draft.alloc())?;
    draft.give_now(number, request)?;
    Ok(Reply::Arrived(number))
}

// Hands out the first frame that waits.
fn take(draft: &mut Draft<'_>, conn: u32) -> Result<Reply, Memory>
    requires { draft.old.delta.outbox ≡ Unchanged }
    ensures base { draft.new.base ≡ draft.old.base }
    ensures ok { IfOk result (spec.ComesTo (spec.taken conn (drafted draft.old)) (drafted draft.new)) }
{
    let frame = match draft.first_frame(conn) {
        Some(frame) => frame.copy()?,
        None => Txt::of(draft.alloc(), b"")?,
    };
    draft.take_frame(conn);
    Ok(Reply::Frame(frame))
}

// Ends a connection; a channel that it holds goes on.
#[tactic(auto, using(crate::proofs::ControlLemmas::gone_first))]
fn close(draft: &mut Draft<'_>, conn: u32, how: Closing) -> Result<(), Memory>
    requires { draft.old.delta.outbox ≡ Unchanged }
    ensures { Brings result draft.old draft.new (spec.after_close how conn (drafted draft.old)) }
{
    match how {
        Closing::EndOfInput => {
            let_channel_go(draft, conn)?;
            part(draft, conn, Parting::EndOfInput)
        }
        Closing::Sent | Closing::Failed => {
            let slot = controlled_slot(draft, conn);
            draft.drop_conn(conn)?;
            let_go_in(draft, conn, slot)
        }
    }
}
