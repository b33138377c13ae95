// The scalars: the letters, the version and the ClipInfo fields.
ghost use Rattle.std.specs.Prelude.{◌≡◌, ◌≤◌, length};
ghost use Rattle.clip_sections.specs.Infos.{clip_info_of};

use common::header::BdmvHeader;
use numbers::u32_at;

// The letters, the version and the ClipInfo fields, as C has them too.
#[repr(C)]
#[derive(Clone, Copy)]
pub struct ClipInfo {
    pub letters: u32,
    pub version: u32,
    pub clip_stream_type: u32,
    pub application_type: u32,
    pub ts_recording_rate: u32,
    pub number_of_source_packets: u32,
    pub validity_flags: u32,
    pub format_id: u32,
}

// The scalars of a file with ClipInfo.
pub fn clip_info(file: &[u8]) -> ClipInfo
    requires { 194 ≤ length file.now }
    ensures { result ≡ clip_info_of file.now }
{
    let header = BdmvHeader::read(file);
    ClipInfo {
        letters: header.type_indicator,
        version: header.version_number,
        clip_stream_type: u32_at::<1>(file, 46),
        application_type: u32_at::<1>(file, 47),
        ts_recording_rate: u32_at::<4>(file, 52),
        number_of_source_packets: u32_at::<4>(file, 56),
        validity_flags: u32_at::<1>(file, 188),
        format_id: u32_at::<4>(file, 190),
    }
}
