//! Variables in order, within the limits of a channel or of the globals, and the expansion of texts that name them.
#![tactic(auto)]

mod bounds;
mod expansion;
mod output;
mod pairs;
mod part;
mod pieces;
mod profile;
mod reference;
mod refused;
mod scope;
mod table;
mod tally;
mod vars;

pub use bounds::Bounds;
pub use expansion::{expand, expansion_law};
pub use pairs::VarsIter;
pub use profile::Profile;
pub use refused::Refused;
pub use scope::Scope;
pub use vars::Vars;
