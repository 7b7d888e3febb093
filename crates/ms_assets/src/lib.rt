//! What a wallet holds for a spend, read from an asset file.
//!
//! A run file gives a script, its stack, its locks and the signatures that are good. Other files have parts of an asset file: the
//! functions that read these are public.
#![tactic(auto)]

pub use asset_file::{preimages_of, read_assets};
pub use checking::{check_keys, check_repeats, check_signatures};
pub use def_files::{AssetFault, Member};
pub use list_fault::ListFault;
pub use members::{
    few, list_at, member_name, number_of, read_json, read_locks, text_at, text_list,
};
pub use ms_held::{AddStop, Assets, MOST_PREIMAGES, MOST_SIGNATURES, Preimage, is_same_key};
pub use run_file::{MOST_ELEMENTS, RunFile, read_run};
pub use texts::{spelled_at, strings_of};

mod asset_file;
mod checking;
mod list_fault;
mod members;
mod run_file;
mod texts;
