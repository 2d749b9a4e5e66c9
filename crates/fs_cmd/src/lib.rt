//! The commands of the event socket, as their blocks are read, and the frames that a connection is sent.
#![tactic(auto)]

mod command;
mod frames;
mod message;

pub use command::{Command, Form};
pub use frames::{
    api_reply, auth_request, filter_added, filter_deleted, invalid_session, notice, notice_of,
    reply,
};
pub use message::Message;
