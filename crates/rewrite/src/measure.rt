// What rewriting tests before it stores a byte: reading's refusals, then the runs; or where the sections of the new file stand.
ghost use Rattle.std.specs.Prelude.{◌≡◌};
ghost use Rattle.refusals.specs.Numbers.{numbered};
ghost use Rattle.rewrite.specs.Rewrite.{planned_of};

use clip_sections::sections::measure;
use common::header::Starts;
use encode_measure::Places;
use refusals::Refusal;
use rewrite_cpi::cpi_length;
use rewrite_sections::programs_length;

// How many ATCs, STCs and maps a file has, and the places of the sections in its new one.
#[derive(Clone, Copy)]
pub struct Plan {
    pub atcs: usize,
    pub stcs: usize,
    pub maps: usize,
    pub places: Places,
}

impl Plan {
    // The plan of a file's new one, or the refusal.
    pub fn of(file: &[u8]) -> Result<Plan, Refusal>
        ensures { numbered result ≡ planned_of file.now }
    {
        let sections = measure(file)?;
        let starts = Starts::read(file);
        let len = cpi_length(file, starts.cpi, sections.maps)?;
        let programs = 226 + 6 * sections.atcs + 14 * sections.stcs;
        let cpi = programs + programs_length(file, starts.programs);
        let marks = cpi + len;
        Ok(Plan {
            atcs: sections.atcs,
            stcs: sections.stcs,
            maps: sections.maps,
            places: Places {
                programs,
                cpi,
                marks,
            },
        })
    }
}
