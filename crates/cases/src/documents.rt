//! What is read of a document.

use crate::variables::tell_vars;
use case_desk::{Answer, number_of};
use fs_doc::{
    Break, Child, ConditionDef, Config, ContextDef, ExtensionDef, PlanAction, Settings, Test,
    read_config,
};
use fs_text::Txt;

/// Answers `config WHAT` about a document: its `settings`, its `globals` or its `dialplan`, or that it is read; or
/// its first fault.
pub(crate) fn tell_config(document: &[u8], what: &str, answer: &mut Answer) {
    match &read_config(answer.alloc(), document) {
        Ok(config) => tell_part(config, what, answer),
        Err(fault) => answer.told(fault),
    }
}

fn tell_part(config: &Config, what: &str, answer: &mut Answer) {
    match what {
        "settings" => tell_settings(config.settings(), answer),
        "globals" => tell_vars(config.globals(), answer),
        "dialplan" => tell_contexts(config.contexts(), answer),
        _ => answer.line("OK"),
    }
}

fn tell_settings(settings: &Settings, answer: &mut Answer) {
    tell_core(settings, answer);
    answer.pair("listen-ip", settings.listen_ip.as_bytes());
    answer.pair("password", settings.password.as_bytes());
    answer.told(format_args!(
        "max-sessions {}, journal-limit {}, listen-port {}, max-connections {}",
        settings.max_sessions,
        settings.journal_limit,
        settings.listen_port,
        settings.max_connections
    ));
}

fn tell_core(settings: &Settings, answer: &mut Answer) {
    let core = settings.core_uuid.uuid(answer.alloc(), 0);
    if let Ok(core) = &core {
        answer.pair("core-uuid", core.as_bytes());
    }
    answer.note(core);
}

fn tell_contexts(contexts: &[ContextDef<Txt>], answer: &mut Answer) {
    for context in contexts {
        answer.pair("context", context.name.as_bytes());
        tell_extensions(context.extensions.as_slice(), answer);
    }
}

fn tell_extensions(extensions: &[ExtensionDef<Txt>], answer: &mut Answer) {
    for extension in extensions {
        tell_extension(extension, answer);
        tell_conditions(extension.conditions.as_slice(), answer);
    }
}

fn tell_extension(extension: &ExtensionDef<Txt>, answer: &mut Answer) {
    answer.begin();
    answer.put("extension ");
    answer.add(extension.name.as_bytes());
    answer.put(if extension.goes_on { ", goes on" } else { "" });
    answer.end();
}

fn tell_conditions(conditions: &[ConditionDef<Txt>], answer: &mut Answer) {
    for condition in conditions {
        tell_test(&condition.test, condition.stop, answer);
        tell_actions("action ", condition.actions.as_slice(), answer);
        tell_actions("anti-action ", condition.anti.as_slice(), answer);
    }
}

fn tell_test(test: &Test<Txt>, stop: Break, answer: &mut Answer) {
    match test {
        Test::Always => answer.told(format_args!("condition Always, {stop:?}")),
        Test::Plain { field, expression } => {
            answer.told(format_args!("condition Plain, {stop:?}"));
            tell_pattern(field.text(), expression, answer);
        }
        Test::Many { kind, children } => {
            answer.told(format_args!("condition {kind:?}, {stop:?}"));
            tell_children(children.as_slice(), answer);
        }
    }
}

fn tell_children(children: &[Child<Txt>], answer: &mut Answer) {
    for child in children {
        tell_pattern(child.field.text(), &child.expression, answer);
    }
}

fn tell_pattern(field: &Txt, expression: &Txt, answer: &mut Answer) {
    answer.begin();
    answer.put("field ");
    answer.add(field.as_bytes());
    answer.put(", expression ");
    answer.add(expression.as_bytes());
    answer.end();
}

fn tell_actions(kind: &str, actions: &[PlanAction], answer: &mut Answer) {
    for action in actions {
        tell_action(kind, action, answer);
    }
}

fn tell_action(kind: &str, action: &PlanAction, answer: &mut Answer) {
    answer.begin();
    answer.put(kind);
    answer.add(action.application.as_bytes());
    answer.put(" ");
    answer.add(action.argument.as_bytes());
    answer.put(if action.inline { ", inline" } else { "" });
    answer.end();
}

/// Adds so many attributes of different names to a document: `a0`, `a1` and on.
pub(crate) fn add_attributes(count: &str, document: &mut Vec<u8>, answer: &mut Answer) {
    let mut text = String::new(answer.alloc());
    for n in 0..number_of(count) {
        let done = write!(text, " a{n}=''");
        answer.note(done);
    }
    answer.add_times(text.as_bytes(), 1, document);
}
