// The packed rows of the entry index, taken apart and built field by field; an entry's time and packet joined of both rows' parts.
#![tactic(auto)]

ghost use Rattle.std.specs.Prelude.{◌≡◌, ◌/◌, ◌%◌, ◌^◌, ◌<◌};
ghost use Rattle.format.specs.Bytes.{packed, unpacked};
ghost use Rattle.format.specs.EntryPoints.{header_widths, coarse_widths, fine_widths, join_time, join_packet};
ghost use Rattle.bits.specs.Words.{low_bits};
ghost use Rattle.ep_rows.specs.Rows.{header_of, header_values, coarse_of, coarse_values, fine_of, fine_values};

use bits::{put_bits, take_bits};

// The packed fields of a map header, behind ten spare bits: stream type, number of coarse rows, number of fine rows.
#[derive(Clone, Copy)]
pub struct MapHeader {
    pub ep_stream_type: u32,
    pub num_coarse: u32,
    pub num_fine: u32,
}

// A coarse row: its first fine row, and the high parts of time and packet.
#[derive(Clone, Copy)]
pub struct CoarseRow {
    pub first_fine: u32,
    pub time: u32,
    pub packet: u32,
}

// A fine row: angle change, where the I picture ends, and the low parts of time and packet.
#[derive(Clone, Copy)]
pub struct FineRow {
    pub angle: u32,
    pub i_end: u32,
    pub time: u32,
    pub packet: u32,
}

// The fields of a map header's 48 bits.
pub fn map_header(word: u64) -> MapHeader
    ensures { result ≡ header_of (unpacked header_widths word) }
{
    MapHeader {
        ep_stream_type: take_bits(word, 38, 4),
        num_coarse: take_bits(word, 34, 16),
        num_fine: take_bits(word, 18, 18),
    }
}

// The fields of a coarse row's 64 bits.
pub fn coarse_row(word: u64) -> CoarseRow
    ensures { result ≡ coarse_of (unpacked coarse_widths word) }
{
    CoarseRow {
        first_fine: take_bits(word, 64, 18),
        time: take_bits(word, 46, 14),
        packet: take_bits(word, 32, 32),
    }
}

// The fields of a fine row's 32 bits.
pub fn fine_row(word: u32) -> FineRow
    ensures { result ≡ fine_of (unpacked fine_widths word) }
{
    let wide = u64::from(word);
    FineRow {
        angle: take_bits(wide, 32, 1),
        i_end: take_bits(wide, 31, 3),
        time: take_bits(wide, 28, 11),
        packet: take_bits(wide, 17, 17),
    }
}

// The 48 bits of a map header: the low bits of each value, as many as its field has, and spare bits 0.
#[tactic(auto, unfolding(bits::specs::Words::with_bits))]
pub fn map_header_word(h: MapHeader) -> u64
    ensures { result ≡ packed header_widths (low_bits header_widths (header_values h)) }
{
    let spare = put_bits(0, 0, 10);
    let kind = put_bits(spare, h.ep_stream_type, 4);
    let coarse = put_bits(kind, h.num_coarse, 16);
    put_bits(coarse, h.num_fine, 18)
}

// The 64 bits of a coarse row.
#[tactic(auto, unfolding(bits::specs::Words::with_bits))]
pub fn coarse_row_word(c: CoarseRow) -> u64
    ensures { result ≡ packed coarse_widths (low_bits coarse_widths (coarse_values c)) }
{
    let first = put_bits(0, c.first_fine, 18);
    let time = put_bits(first, c.time, 14);
    put_bits(time, c.packet, 32)
}

// The 32 bits of a fine row.
#[tactic(auto, unfolding(bits::specs::Words::with_bits))]
pub fn fine_row_word(f: FineRow) -> u32
    ensures { result ≡ packed fine_widths (low_bits fine_widths (fine_values f)) }
{
    let angle = put_bits(0, f.angle, 1);
    let i_end = put_bits(angle, f.i_end, 3);
    let time = put_bits(i_end, f.time, 11);
    put_bits(time, f.packet, 17) as u32
}

// The coarse time at bit 19 or the fine time at bit 9: bit 19 is shared.
#[tactic(auto, unfolding(format::specs::EntryPoints::join_time))]
pub fn entry_time(coarse: u32, fine: u32) -> u64
    requires { fine < 2 ^ 11 }
    ensures { result ≡ join_time coarse fine }
{
    u64::from((coarse << 19) | (fine << 9))
}

// The coarse packet with its 17 lowest bits replaced by the fine packet.
pub fn entry_packet(coarse: u32, fine: u32) -> u32
    requires { fine < 2 ^ 17 }
    ensures { result ≡ join_packet coarse fine }
{
    (coarse & 0xfffe0000) | fine
}

// The coarse time of an entry, which has 14 bits.
pub fn coarse_time_of(time: u64) -> u32
    requires { time < 2 ^ 33 }
    ensures { result ≡ time / 524288 }
{
    (time / 524288) as u32
}

// The fine time of an entry.
pub fn fine_time_of(time: u64) -> u32
    ensures { result ≡ time / 512 % 2048 }
{
    (time / 512 % 2048) as u32
}

// The fine packet of an entry.
pub fn fine_packet_of(packet: u32) -> u32
    ensures { result ≡ packet % 131072 }
{
    packet & 0x1ffff
}
