// The coding type of a stream and the type of a map: video or not, audio or not.
#![tactic(auto)]

ghost use Rattle.std.specs.Prelude.{◌≡◌};
ghost use Rattle.format.specs.Programs.{is_video};
ghost use Rattle.format.specs.Questions.{is_audio, is_video_map};

// MPEG-2, AVC, the dependent view of MVC, HEVC and VC-1 are video. The whole number counts: 0x11B is none of them.
#[tactic(auto, unfolding(format::specs::Programs::is_video))]
pub fn is_video(coding_type: u32) -> bool
    ensures { result ≡ is_video coding_type }
{
    matches!(coding_type, 0x02 | 0x1B | 0x20 | 0x24 | 0xEA)
}

// LPCM, AC-3, DTS, TrueHD, E-AC-3, DTS-HD and its master audio, and the two secondary ones are audio.
#[tactic(auto, unfolding(format::specs::Questions::is_audio))]
pub fn is_audio(coding_type: u32) -> bool
    ensures { result ≡ is_audio coding_type }
{
    matches!(coding_type, 0x80..=0x86 | 0xA1 | 0xA2)
}

// MPEG-2, AVC, VC-1 and HEVC, of the low four bits of a map's type, which the caller takes.
pub fn is_video_map(kind: u32) -> bool
    ensures { result ≡ is_video_map kind }
{
    matches!(kind, 1 | 5 | 6 | 8)
}
