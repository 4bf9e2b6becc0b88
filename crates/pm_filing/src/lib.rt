//! Data files read, and objects made of them. It knows nothing of clients, sessions and
//! where files are kept.
#![tactic(auto)]

mod assembly;
mod fail;
mod ignored;
mod laws;
mod load;
mod parts;
mod profile;
mod read;
mod tests_of_parts;

pub use fail::FileFail;
pub use laws::{
    law_files_are_read_back, law_loaded_is_kept, law_readings_are_unique, law_saved_is_whole,
    law_values_are_read_back,
};
pub use load::load_object;
pub use profile::has_label;
pub use read::read_object;
