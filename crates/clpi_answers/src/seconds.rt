// The transfer duration as numbers for C. No `From`, as in lib.rt.
ghost use Rattle.std.specs.Prelude.{◌≡◌};
ghost use Rattle.format.specs.Questions.{answer_numbers};
ghost use Rattle.clip_info_queries.specs.Durations.{transfer_of};
ghost use Rattle.clpi_answers.specs.Numbers.{seconds_numbers};

use clip_info_queries::Duration;

// A refusal, which there is none of; whether there is a rate; the seconds.
#[repr(C)]
#[derive(Clone, Copy)]
pub struct ClpiSeconds {
    pub refusal: u32,
    pub found: u32,
    pub seconds: f64,
}

// The numbers of a duration.
pub fn seconds_of(duration: Duration) -> ClpiSeconds
    ensures { seconds_numbers result ≡ answer_numbers (transfer_of duration) }
{
    match duration {
        Duration::Seconds(seconds) => ClpiSeconds {
            refusal: 0,
            found: 1,
            seconds,
        },
        Duration::NoRate => ClpiSeconds {
            refusal: 0,
            found: 0,
            seconds: 0.0,
        },
    }
}
