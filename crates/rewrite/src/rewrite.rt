// The new file stored.
ghost use Rattle.std.specs.Prelude.{◌≡◌, length};
ghost use Rattle.std.proofs.lemmas.List.Edits.{sets};
ghost use Rattle.format.specs.Refusals.{output_by};
ghost use Rattle.format.specs.Reading.{clip_of};
ghost use Rattle.format.specs.Rewriting.{encode};
ghost use Rattle.encode.specs.Writing.{write_answer_of};
ghost use Rattle.rewrite.specs.Rewrite.{Ready, rewrite_answer, length_answer, length_of};

use crate::measure::Plan;
use clip_sections::info::clip_info;
use common::header::Starts;
use encode::write::WriteError;
use encode_head::put_head;
use refusals::Refusal;
use rewrite_cpi::put_cpi;
use rewrite_program::Places;
use rewrite_sections::{put_programs, put_sequences};
use section_heads::put_marks;

// The length of a file's new one, or the refusal.
pub fn rewritten_length(file: &[u8]) -> Result<usize, Refusal>
    ensures { length_of result ≡ length_answer file.now }
{
    Ok(Plan::of(file)?.places.marks + 6)
}

// Stores the new file, section by section.
fn put_sections(file: &[u8], plan: Plan, out: &mut [u8])
    requires { Ready file.now plan (length out.old) }
    ensures { out.new ≡ sets out.old 0 (encode (clip_of file.now)) }
{
    let starts = Starts::read(file);
    let sequences = Places {
        file: starts.sequences,
        out: 220,
    };
    let programs = Places {
        file: starts.programs,
        out: plan.places.programs,
    };
    let cpi = Places {
        file: starts.cpi,
        out: plan.places.cpi,
    };
    put_head(
        clip_info(file),
        plan.places.programs as u32,
        plan.places.cpi as u32,
        plan.places.marks as u32,
        out,
    );
    put_sequences(file, sequences, plan.atcs, plan.stcs, out);
    put_programs(file, programs, plan.places.cpi - plan.places.programs, out);
    put_cpi(
        file,
        cpi,
        plan.maps,
        plan.places.marks - plan.places.cpi,
        out,
    );
    put_marks(out, plan.places.marks);
}

// Rewrites a file into the output, and tells how long the new one is; an error leaves the output as it was.
pub fn rewrite(file: &[u8], out: &mut [u8]) -> Result<usize, WriteError>
    ensures result_value { write_answer_of result ≡ rewrite_answer file.now out.old }
    ensures out_after { out.new ≡ output_by (write_answer_of result) (encode (clip_of file.now)) out.old }
{
    let plan = Plan::of(file)?;
    let len = plan.places.marks + 6;
    if out.len() < len {
        return Err(WriteError::OutputShort(len));
    }
    put_sections(file, plan, out);
    Ok(len)
}
