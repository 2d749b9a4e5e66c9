//! Byte texts and how they are cut, the tables of names and numbers, escapes, headers and identifiers.
#![tactic(auto)]

mod causes;
mod core_id;
mod escapes;
mod event_names;
mod headers;
mod memory;
mod numbers;
mod search;
mod states;
mod tables;
mod text;
mod words;

pub use causes::Cause;
pub use core_id::CoreId;
pub use escapes::{escape, escape_law, push_escaped};
pub use event_names::EventName;
pub use headers::{HeaderSink, Headers, give, give_variable, push_header, variable_name};
pub use memory::Memory;
pub use numbers::{decimal, decimal_law, read_u64};
pub use search::offset_of;
pub use states::State;
pub use text::Txt;
pub use words::{cut_at, cut_word, is_short, split_at_byte, without_spaces};
