//! The loop over lines, whatever answers them: reads lines, asks the clock once a line, writes each
//! reply with its end and flushes.
#![tactic(auto)]

mod clock;
mod fixed_clock;
mod input;
mod line;
mod output;
mod responder;
mod serving;

pub use clock::Clock;
pub use fixed_clock::FixedClock;
pub use input::Input;
pub use output::{Output, WriteFailed, write_bytes, write_line};
pub use responder::{LIMIT, Responder, Text};
pub use serving::{ServeFault, answer_lines};
