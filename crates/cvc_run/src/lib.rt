//! A whole run of a check: from the files of a job, or a generated circuit, to the report or the refusal, and the status.
//!
//! `specs/Said` has what the files say, `specs/Outcome` the status and the text that follow, and `specs/Run` what a run may answer.
#![tactic(auto)]

mod checked;
mod lines;
mod load;
mod netlist;
mod run;
mod stage;
mod stages;
mod status;
mod stop;
mod telling;
mod whole;

pub use lines::{LineCause, LineRefused, RunRefused, Subject};
pub use load::{load_file, load_text};
pub use run::{check, check_serial, survey};
pub use stage::{Refused, Stage};
pub use stages::{Design, load_design, read_design, read_power_file};
pub use status::Status;
pub use stop::{LoadFault, RunStop};
pub use telling::{Told, tell, tell_run};
pub use whole::{Whole, bind_files};
