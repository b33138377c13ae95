// Questions about the packet count and the rate.
#![tactic(auto)]

pub mod division;

ghost use Rattle.std.specs.Prelude.{◌≡◌, Ok};
ghost use Rattle.format.specs.Questions.{number, ask, clip_byte_len, spn_to_byte, byte_to_spn, transfer_duration_secs, IsTransfer};
ghost use Rattle.queries.specs.Answers.{found_of};
ghost use Rattle.queries.specs.Asked.{only_counts, only_scalars};
ghost use Rattle.clip_info_queries.specs.Durations.{transfer_of};

use crate::division::divide;

// The bytes of a packet.
const PACKET: u64 = 192;

// Seconds, or no rate to divide by: document 01 names this enum and its cases, where the Rust has an Option.
#[derive(Clone, Copy)]
pub enum Duration {
    Seconds(f64),
    NoRate,
}

// The clip's length in bytes.
pub fn clip_byte_len(packets: u32) -> u64
    ensures { number result ≡ ask clip_byte_len (only_scalars (only_counts 0 packets)) }
{
    u64::from(packets) * PACKET
}

// The byte at which a packet starts; the packet count itself gives the clip's end.
pub fn spn_to_byte(packets: u32, spn: u32) -> Option<u64>
    ensures { found_of (Ok result) ≡ ask (spn_to_byte spn) (only_scalars (only_counts 0 packets)) }
{
    (spn <= packets).then_some(u64::from(spn) * PACKET)
}

// The packet in which a byte lies.
pub fn byte_to_spn(packets: u32, byte: u64) -> Option<u64>
    ensures { found_of (Ok result) ≡ ask (byte_to_spn byte) (only_scalars (only_counts 0 packets)) }
{
    let spn = byte / PACKET;
    (spn < u64::from(packets)).then_some(spn)
}

// The seconds that the clip's bytes take at its rate: the same in every rounding mode of the machine.
pub fn transfer_duration_secs(rate: u32, packets: u32) -> Duration
    ensures result_value { transfer_of result ≡ ask transfer_duration_secs (only_scalars (only_counts rate packets)) }
    ensures transfer { IsTransfer rate packets (transfer_of result) }
{
    if rate == 0 {
        return Duration::NoRate;
    }
    let bytes = u64::from(packets) * PACKET;
    Duration::Seconds(divide(bytes, u64::from(rate)))
}
