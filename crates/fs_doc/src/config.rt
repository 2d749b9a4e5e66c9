//! A configuration.

ghost use Rattle.std.specs.Prelude.{◌≡◌};
ghost use Rattle.fs_doc.specs.Limits.{IsWithin};
ghost use Rattle.fs_doc.specs.Reading.{configured};

use crate::content::Content;
use crate::dialplan::ContextDef;
use crate::listed::Listed;
use crate::settings::Settings;
use fs_text::Txt;
use fs_vars::Vars;
use std::marker::Model;

/// What a document configures: the settings, the globals that it sets, and its dialplan.
///
/// Each setting is in its range, the globals are bounded as those of a switch are, and no count is above its limit.
pub struct Config {
    settings: Settings,
    globals: Vars,
    contexts: Listed<ContextDef<Txt>>,
}

impl Drop for Config {
    fn drop(self) {
        let Config {
            settings: _settings,
            globals: _globals,
            contexts: _contexts,
        } = self;
    }
}

impl Model for Config {
    ghost use Rattle.fs_doc.specs.Reading.{Configuration};
    ghost use Rattle.fs_doc.specs.Limits.{IsWithin};

    ghost Value = { Configuration };

    ghost view = { λ c. record { settings = c.settings; globals = c.globals; contexts = c.contexts } };

    ghost invariant = { λ c. IsWithin (record { settings = c.settings; globals = c.globals; contexts = c.contexts }) };
}

impl Config {
    /// What was read of a document.
    pub(crate) fn of(content: Content) -> Config
        requires { IsWithin (configured content) }
        ensures { result ≡ configured content }
    {
        let (settings, globals, contexts) = content.into_parts();
        Config {
            settings,
            globals,
            contexts,
        }
    }

    /// The settings of the switch.
    pub fn settings(&self) -> &Settings
        ensures { result.now ≡ self.now.settings }
    {
        &self.settings
    }

    /// The globals that a switch starts with.
    pub fn globals(&self) -> &Vars
        ensures { result.now ≡ self.now.globals }
    {
        &self.globals
    }

    /// The contexts of the dialplan, in the order in which they first stand.
    pub fn contexts(&self) -> &[ContextDef<Txt>]
        ensures { result.now ≡ self.now.contexts }
    {
        self.contexts.as_slice()
    }

    /// The ranges and limits that each configuration keeps. It does nothing, and stands for its contract.
    pub fn within(&self)
        ensures { IsWithin self.now }
    {
        let _settings = &self.settings;
    }
}
