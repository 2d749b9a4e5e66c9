//! One origination: what it is to try, the legs that it has made, each change of these, and the verdict on it at a
//! moment; and what a dial string says of one.
#![tactic(auto)]

mod caller;
mod changes;
mod dialed;
mod endpoint;
mod leg;
mod living;
mod orig;
mod plan;
mod route;
mod search;
mod timeout;
mod verdict;
mod winner;

pub use caller::Caller;
pub use changes::changes_law;
pub use endpoint::Endpoint;
pub use leg::{OrigLeg, OrigLegs};
pub use living::{add_living_slots, living_slots};
pub use orig::{Orig, Owner};
pub use plan::{LegGroup, LegPlan, LegPlans};
pub use route::Route;
pub use timeout::{braces_timeout, seconds_of};
pub use verdict::{Verdict, judge, verdict_law};
pub use winner::Winner;
