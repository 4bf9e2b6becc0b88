//! Data files of objects. It knows nothing of clients, sessions and where files are kept.
#![tactic(auto)]

mod save;

pub use save::save_object;
