// Questions about the packet count and the rate.
ghost use Rattle.std.specs.Prelude.{◌≡◌};
ghost use Rattle.format.specs.Questions.{answer_numbers, ask, spn_to_byte, byte_to_spn, clip_byte_len, transfer_duration_secs, number};
ghost use Rattle.queries.specs.Asked.{only_counts, only_scalars};
ghost use Rattle.clpi_answers.specs.Numbers.{found_numbers, seconds_numbers};

use clip_info_queries::{byte_to_spn, clip_byte_len, spn_to_byte, transfer_duration_secs};
use clpi_answers::seconds::{ClpiSeconds, seconds_of};
use clpi_answers::{ClpiAnswer, answer_of};

// The clip's length in bytes.
pub fn clpi_clip_byte_len(packets: u32) -> u64
    ensures { number result ≡ ask clip_byte_len (only_scalars (only_counts 0 packets)) }
{
    clip_byte_len(packets)
}

// The byte at which a packet starts.
pub fn clpi_spn_to_byte(packets: u32, spn: u32) -> ClpiAnswer
    ensures { found_numbers result ≡ answer_numbers (ask (spn_to_byte spn) (only_scalars (only_counts 0 packets))) }
{
    answer_of(Ok(spn_to_byte(packets, spn)))
}

// The packet in which a byte lies.
pub fn clpi_byte_to_spn(packets: u32, byte: u64) -> ClpiAnswer
    ensures { found_numbers result ≡ answer_numbers (ask (byte_to_spn byte) (only_scalars (only_counts 0 packets))) }
{
    answer_of(Ok(byte_to_spn(packets, byte)))
}

// The seconds that the clip's bytes take at its rate.
pub fn clpi_transfer_duration_secs(rate: u32, packets: u32) -> ClpiSeconds
    ensures { seconds_numbers result ≡ answer_numbers (ask transfer_duration_secs (only_scalars (only_counts rate packets))) }
{
    seconds_of(transfer_duration_secs(rate, packets))
}
