//! Where a message goes that comes to a site: into the site where its home is hosted there, and
//! else on to the site that hosts its home.
#![tactic(auto)]

mod routing;

pub use routing::{Delivery, address, can_deliver, deliver};
