//! Plans as code: fetches and stores, looked up by element and number, and the test whether they fit a memory. The laws
//! of `im_plans` say what the results of a plan's requests are, whatever their order.
#![tactic(auto)]

mod fitting;
mod plan;
mod progress;
mod states;

pub use fitting::fits;
pub use plan::Plan;
pub use progress::is_under_way;
