//! Api commands, as their texts are read.

use crate::applications::tell_where;
use case_desk::Answer;
use fs_api::{Api, Side};
use fs_orig::{Route, Winner};
use fs_text::{Cause, Memory};

/// Answers `api TEXT` with the command and its parts.
pub(crate) fn tell_api(text: &str, answer: &mut Answer) {
    let text = answer.bytes_of(text);
    let made = Api::of(answer.alloc(), &text);
    tell_made(made, answer);
}

/// Answers `expanded TEXT`, where `expand` gave the text, in the same way.
pub(crate) fn tell_expanded(text: &str, answer: &mut Answer) {
    let text = answer.bytes_of(text);
    let made = Api::of_expanded(answer.alloc(), &text);
    tell_made(made, answer);
}

fn tell_made(made: Result<Api, Memory>, answer: &mut Answer) {
    if let Ok(api) = &made {
        tell_command(api, answer);
    }
    answer.note(made);
}

fn tell_command(api: &Api, answer: &mut Answer) {
    match api {
        Api::Echo { text } => answer.named("Echo", text.as_bytes()),
        Api::Expand { uuid: None, text } => answer.named("Expand", text.as_bytes()),
        Api::Expand {
            uuid: Some(uuid),
            text,
        } => answer.named_two("Expand", uuid.as_bytes(), text.as_bytes()),
        Api::CreateUuid => answer.line("CreateUuid"),
        Api::GlobalGetvar { name: None } => answer.line("GlobalGetvar"),
        Api::GlobalGetvar { name: Some(name) } => answer.named("GlobalGetvar", name.as_bytes()),
        Api::GlobalSetvar { name, value } => answer.named_two(
            "GlobalSetvar",
            name.as_bytes(),
            value.as_bytes(),
        ),
        Api::Msleep { milliseconds } => answer.told(format_args!("Msleep [{milliseconds}]")),
        Api::UuidBridge { uuid, other } => answer.named_two(
            "UuidBridge",
            uuid.as_bytes(),
            other.as_bytes(),
        ),
        Api::UuidExists { uuid } => answer.named("UuidExists", uuid.as_bytes()),
        Api::UuidKill { uuid, cause } => {
            answer.named("UuidKill", uuid.as_bytes());
            tell_cause(*cause, answer);
        }
        Api::UuidSetvar { uuid, name, value } => answer.named_three(
            "UuidSetvar",
            uuid.as_bytes(),
            name.as_bytes(),
            value.as_bytes(),
        ),
        Api::UuidGetvar { uuid, name } => answer.named_two(
            "UuidGetvar",
            uuid.as_bytes(),
            name.as_bytes(),
        ),
        Api::UuidDump { uuid } => answer.named("UuidDump", uuid.as_bytes()),
        Api::UuidPark { uuid } => answer.named("UuidPark", uuid.as_bytes()),
        Api::UuidTransfer { uuid, side, to } => {
            answer.named_two("UuidTransfer", uuid.as_bytes(), to.exten.as_bytes());
            tell_side(*side, answer);
            tell_where(to, answer);
        }
        Api::Hupall { cause } => {
            answer.line("Hupall");
            tell_cause(*cause, answer);
        }
        Api::Reloadxml => answer.line("Reloadxml"),
        Api::Shutdown => answer.line("Shutdown"),
        Api::Originate {
            url,
            winner,
            cid_name,
            cid_number,
            timeout,
        } => {
            answer.named_three(
                "Originate",
                url.as_bytes(),
                cid_name.as_bytes(),
                cid_number.as_bytes(),
            );
            tell_timeout(*timeout, answer);
            tell_winner(winner, answer);
        }
        Api::Usage(which) => answer.told(format_args!("Usage {which:?}")),
        Api::Unknown(name) => answer.named("Unknown", name.as_bytes()),
    }
}

// Adds which legs are meant, where that is not the channel alone.
fn tell_side(side: Side, answer: &mut Answer) {
    match side {
        Side::This => {}
        Side::Both => answer.line("both"),
        Side::Other => answer.line("other"),
    }
}

fn tell_cause(cause: Cause, answer: &mut Answer) {
    answer.pair("cause", cause.name().as_bytes());
}

// Adds the seconds that the legs have, where they are told.
fn tell_timeout(timeout: Option<u64>, answer: &mut Answer) {
    if let Some(seconds) = timeout {
        answer.told(format_args!("timeout [{seconds}]"));
    }
}

// Adds what the winner does.
fn tell_winner(winner: &Winner, answer: &mut Answer) {
    match winner {
        Winner::App {
            application,
            argument,
        } => answer.named_two("App", application.as_bytes(), argument.as_bytes()),
        Winner::Route(route) => {
            let done = tell_route(route, answer);
            answer.note(done);
        }
    }
}

fn tell_route(route: &Route, answer: &mut Answer) -> Result<(), Memory> {
    let (exten, dialplan, context) = route.copy()?.into_texts();
    answer.named_three(
        "Route",
        exten.as_bytes(),
        dialplan.as_bytes(),
        context.as_bytes(),
    );
    Ok(())
}
