//! The markup of documents: comments, tags with their attributes, and what a value says once its entities are decoded.
//!
//! Every reader takes the bytes that are left, and answers what it read with the rest, or the first fault. Nothing is
//! copied but the text of a value.
#![tactic(auto)]

mod attribute;
mod bytes;
mod entity;
mod markup;
mod stop;
mod tag;
mod value;

pub use attribute::{Attr, Ending};
pub use bytes::past_blanks;
pub use markup::{Markup, read_markup};
pub use stop::{MarkupStop, TagStop, ValueFault, ValueStop};
pub use tag::Body;
pub use value::decode;
