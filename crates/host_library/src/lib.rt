//! A host: it sends commands to a drive over a link, and keeps a shadow of each zone.
#![tactic(auto)]

mod asking;
mod done;
mod fail_link;
mod host;
mod host_err;
mod link;
mod loop_link;
mod pumping;
mod shadow;
mod shadows;
mod stage;

pub use done::Done;
pub use fail_link::FailLink;
pub use host::Host;
pub use host_err::HostErr;
pub use link::Link;
pub use loop_link::LoopLink;
pub use shadow::Shadow;
pub use stage::Stage;
