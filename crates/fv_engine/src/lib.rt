//! The record service: an engine over a database answers lines, each by one step of the service. A judge
//! answers them as where there is no record.
#![tactic(auto)]

mod engine;
mod exporting;
mod judge;
mod serving;

pub use engine::{Engine, OpenFault};
pub use exporting::ExportFault;
pub use fv_engine_lines::{Clock, FixedClock, Input, Output, ServeFault};
pub use fv_engine_reply::Reply;
pub use judge::LineJudge;
pub use serving::serve;
