//! What the words of formd ask, and the files and the clock of the machine that it is done with.
#![tactic(auto)]

mod bytes;
mod clocks;
mod files;
mod location;
mod made;
mod task;

pub use clocks::MachineClock;
pub use files::{FileFault, read_file, read_whole};
pub use made::{Absent, NotOpened, absent_at, close_refused, open_database};
pub use task::{Explain, Service, Source, Task, Telling, VERSION, task_of};
