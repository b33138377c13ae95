// The place of an extension's data as numbers for C. No `From`, as in lib.rt.
ghost use Rattle.std.specs.Prelude.{◌≡◌};
ghost use Rattle.clpi_answers.specs.Numbers.{part_numbers, place_numbers};

use extension_entry::Part;
use refusals::Refusal;

// Where the data of a row stands, or 22 and zeros.
#[repr(C)]
#[derive(Clone, Copy)]
pub struct ClpiPart {
    pub refusal: u32,
    pub offset: usize,
    pub length: usize,
}

// The numbers of a place.
pub fn part_of(place: Result<Part, Refusal>) -> ClpiPart
    ensures { part_numbers result ≡ place_numbers place }
{
    match place {
        Ok(Part { start, len }) => ClpiPart {
            refusal: 0,
            offset: start,
            length: len,
        },
        Err(refusal) => ClpiPart {
            refusal: refusal.number(),
            offset: 0,
            length: 0,
        },
    }
}
