// What a question answers: a refusal, or what was found.
#![tactic(auto)]

use refusals::Refusal;
use ticks::{Ticks45, Ticks90};

// Nothing, or a number: a row, a packet, a byte, a PID or minutes.
pub type Found = Result<Option<u64>, Refusal>;

// A time in 45 kHz ticks.
pub type Time45 = Result<Ticks45, Refusal>;

// Nothing, or a time in 90 kHz ticks.
pub type Time90 = Result<Option<Ticks90>, Refusal>;
