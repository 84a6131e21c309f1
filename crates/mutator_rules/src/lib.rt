//! The three kinds of mutators, as traits: what a rule answers at a node, and when it may be asked.
//!
//! A graph and the results of a node's neighbours flow in; the node's result, its variants or its wanted
//! variations flow out. A rule is measured by its `meaning`, which is total (`specs/Meaning.antt` has that of a
//! transition), and may be asked where `MayVisit` of `specs/Conditions.antt` holds.
#![tactic(auto)]

mod arriving;
mod bottom_up;
mod config;
mod error;
pub mod laws;
mod request;
mod split;
mod top_down;
mod transition;

pub use arriving::{Arriving, arrivals_of, kinds_of};
pub use bottom_up::BottomUp;
pub use config::Config;
pub use error::KindError;
pub use module_graph::Axis;
pub use request::{Request, Wanted};
pub use split::Split;
pub use top_down::TopDown;
pub use transition::Transition;
