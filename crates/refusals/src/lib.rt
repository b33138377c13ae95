// Why a file, a call or a record is refused, and the number that documents 01 and 02 give each reason.
#![tactic(auto)]

ghost use Rattle.std.specs.Prelude.{◌≡◌};
ghost use Rattle.refusals.specs.Numbers.{number_of};

// The refusals that say no more than their number, named as include/clpi.h names them. A table or an output that is too short also says what it needs: reading's and writing's errors have these beside a refusal.
#[derive(Clone, Copy, Debug, PartialEq, Eq)]
pub enum Refusal {
    HeaderShort,
    Letters,
    ClipInfo,
    Sequences,
    Programs,
    Cpi,
    MapAddress,
    Marks,
    FileTooLong,
    Rows,
    Cells,
    Runs,
    RecordLetters,
    FineAddress,
    MapBody,
}

impl Refusal {
    // Its number in documents 01 and 02.
    pub fn number(self) -> u32
        ensures { result ≡ number_of self }
    {
        match self {
            Refusal::HeaderShort => 1,
            Refusal::Letters => 2,
            Refusal::ClipInfo => 3,
            Refusal::Sequences => 4,
            Refusal::Programs => 5,
            Refusal::Cpi => 6,
            Refusal::MapAddress => 7,
            Refusal::Marks => 8,
            Refusal::FileTooLong => 20,
            Refusal::Rows => 22,
            Refusal::Cells => 30,
            Refusal::Runs => 31,
            Refusal::RecordLetters => 40,
            Refusal::FineAddress => 41,
            Refusal::MapBody => 42,
        }
    }
}
