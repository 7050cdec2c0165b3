// Sessions: spans of any allocator, granted and given back last in, first out.
#![tactic(auto)]

mod fault;
mod figures;
mod grant;
mod live;
mod session;
mod visit;

pub use fault::Fault;
pub use figures::session_figures;
pub use grant::Grant;
pub use session::Session;
pub use visit::round_trip;
