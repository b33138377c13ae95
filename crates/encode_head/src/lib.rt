// The first 220 bytes of a written file: the header and ClipInfo.
#![tactic(auto)]

ghost use Rattle.std.specs.Prelude.{◌≡◌, ◌≤◌, length};
ghost use Rattle.std.proofs.lemmas.List.Edits.{sets};
ghost use Rattle.format.specs.Bytes.{field_bytes};
ghost use Rattle.format.specs.Rewriting.{head_bytes};
ghost use Rattle.clip_information.specs.Read.{scalars_by};
ghost use Rattle.encode_head.specs.Heads.{header_widths, header_numbers, format_widths, format_numbers, info_widths, info_numbers};

use clip_sections::info::ClipInfo;
use numbers::{put_u32, put_zeros};

// The header: letters, version, the five starts, spare bytes.
fn put_header(letters: u32, version: u32, programs: u32, cpi: u32, marks: u32, out: &mut [u8])
    requires { 40 ≤ length out.old }
    ensures { out.new ≡ sets out.old 0 (field_bytes header_widths (header_numbers letters version programs cpi marks)) }
{
    put_u32::<4>(out, 0, letters);
    put_u32::<4>(out, 4, version);
    put_u32::<4>(out, 8, 220);
    put_u32::<4>(out, 12, programs);
    put_u32::<4>(out, 16, cpi);
    put_u32::<4>(out, 20, marks);
    put_u32::<4>(out, 24, 0);
    put_zeros::<12>(out, 28);
}

// The last part of ClipInfo: validity flags and format id.
fn put_format(info: ClipInfo, out: &mut [u8])
    requires { 220 ≤ length out.old }
    ensures { out.new ≡ sets out.old 188 (field_bytes format_widths (format_numbers (scalars_by info))) }
{
    put_u32::<1>(out, 188, info.validity_flags);
    put_u32::<1>(out, 189, 0);
    put_u32::<4>(out, 190, info.format_id);
    put_zeros::<26>(out, 194);
}

// ClipInfo behind its length: the fields that the record keeps, zeros between them.
fn put_clip_info(info: ClipInfo, out: &mut [u8])
    requires { 220 ≤ length out.old }
    ensures { out.new ≡ sets out.old 40 (field_bytes info_widths (info_numbers (scalars_by info))) }
{
    put_u32::<4>(out, 40, 176);
    put_u32::<2>(out, 44, 0);
    put_u32::<1>(out, 46, info.clip_stream_type);
    put_u32::<1>(out, 47, info.application_type);
    put_u32::<4>(out, 48, 0);
    put_u32::<4>(out, 52, info.ts_recording_rate);
    put_u32::<4>(out, 56, info.number_of_source_packets);
    put_zeros::<128>(out, 60);
    put_format(info, out);
}

// The first 220 bytes, with the starts of programs, CPI and marks; the sequences start behind them.
pub fn put_head(info: ClipInfo, programs: u32, cpi: u32, marks: u32, out: &mut [u8])
    requires { 220 ≤ length out.old }
    ensures { out.new ≡ sets out.old 0 (head_bytes (scalars_by info) programs cpi marks) }
{
    put_header(info.letters, info.version, programs, cpi, marks, out);
    put_clip_info(info, out);
}
