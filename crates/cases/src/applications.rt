//! Applications, as their names and arguments are read.

use case_desk::{Answer, cut};
use fs_app::Application;
use fs_chan::{Assignment, Target3};

/// Answers `app NAME ARGUMENT` with the application and its parts.
pub(crate) fn tell_app(rest: &str, answer: &mut Answer) {
    let (name, argument) = cut(rest);
    let name = answer.bytes_of(name);
    let argument = answer.bytes_of(argument);
    let made = Application::of(answer.alloc(), &name, &argument);
    if let Ok(application) = &made {
        tell_application(application, answer);
    }
    answer.note(made);
}

fn tell_application(application: &Application, answer: &mut Answer) {
    match application {
        Application::Answer => answer.line("Answer"),
        Application::Assign { how, argument } => answer.named(
            assignment_name(*how),
            argument.as_bytes(),
        ),
        Application::Eval => answer.line("Eval"),
        Application::Sleep { milliseconds } => answer.told(format_args!("Sleep [{milliseconds}]")),
        Application::Hangup { cause } => answer.pair("Hangup", cause.name().as_bytes()),
        Application::Bridge { dial } => answer.named("Bridge", dial.as_bytes()),
        Application::Park => answer.line("Park"),
        Application::Transfer { to } => {
            answer.named("Transfer", to.exten.as_bytes());
            tell_where(to, answer);
        }
        Application::FifoIn { name } => answer.named("FifoIn", name.as_bytes()),
        Application::FifoOut { name, waits } => {
            answer.named("FifoOut", name.as_bytes());
            tell_whether_it_waits(*waits, answer);
        }
        Application::Socket { target } => answer.named("Socket", target.as_bytes()),
        Application::Unknown => answer.line("Unknown"),
    }
}

fn assignment_name(how: Assignment) -> &'static str {
    match how {
        Assignment::Set => "Set",
        Assignment::Unset => "Unset",
        Assignment::Export => "Export",
        Assignment::SetGlobal => "SetGlobal",
    }
}

fn tell_whether_it_waits(waits: bool, answer: &mut Answer) {
    if waits {
        answer.line("waits");
    }
}

/// Adds the dialplan and the context of a target where they are named.
pub(crate) fn tell_where(to: &Target3, answer: &mut Answer) {
    if let Some(dialplan) = &to.dialplan {
        answer.named("dialplan", dialplan.as_bytes());
    }
    if let Some(context) = &to.context {
        answer.named("context", context.as_bytes());
    }
}
