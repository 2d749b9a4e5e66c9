//! Configurations out of documents: the XML files that FreeSWITCH is configured by.
//!
//! A document is read in one pass, with the open elements on a stack. Everything in it is judged strictly: what is not
//! in the grammar is a fault, of which kind and offset are told.
#![tactic(auto)]

mod attributes;
mod config;
mod content;
mod dialplan;
mod document;
mod element;
mod fault;
mod field;
mod given;
mod globals;
mod listed;
mod settings;
mod state;
mod values;

pub use config::Config;
pub use dialplan::{
    Break, Child, ConditionDef, ContextDef, ExtensionDef, ManyKind, PlanAction, Test,
};
pub use document::read_config;
pub use fault::{DocFault, DocKind};
pub use field::Field;
pub use globals::globals_law;
pub use listed::Listed;
pub use settings::Settings;
