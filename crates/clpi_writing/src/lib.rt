// The answers of writing and rewriting as numbers for C.
#![tactic(auto)]

ghost use Rattle.std.specs.Prelude.{◌≡◌, ◌^◌, ◌<◌};
ghost use Rattle.format.specs.Refusals.{WriteAnswer, write_numbers};
ghost use Rattle.encode.specs.Writing.{write_answer_of, bytes_in};
ghost use Rattle.rewrite.specs.Rewrite.{LengthAnswer, length_of, length_numbers, length_in};
ghost use Rattle.clpi_writing.specs.Numbers.{writing_numbers, new_length_numbers};

use encode::write::WriteError;
use refusals::Refusal;

// A refusal; with 23 how many bytes the output needs; without one how many were written. The other numbers are 0.
#[repr(C)]
#[derive(Clone, Copy)]
pub struct ClpiWriting {
    pub refusal: u32,
    pub bytes_needed: u32,
    pub bytes_written: u32,
}

// The numbers of a refusal of writing, by its own.
pub fn writing_refused(refusal: u32) -> ClpiWriting
    ensures { writing_numbers result ≡ write_numbers (WriteAnswer.refused refusal) }
{
    ClpiWriting {
        refusal,
        bytes_needed: 0,
        bytes_written: 0,
    }
}

// The numbers of an answer. No `From`, since it asks that the length fits.
pub fn writing_of(answer: Result<usize, WriteError>) -> ClpiWriting
    requires { bytes_in (write_answer_of answer) < 2 ^ 32 }
    ensures { writing_numbers result ≡ write_numbers (write_answer_of answer) }
{
    match answer {
        Ok(bytes) => ClpiWriting {
            refusal: 0,
            bytes_needed: 0,
            bytes_written: bytes as u32,
        },
        Err(WriteError::Refused(e)) => writing_refused(e.number()),
        Err(WriteError::OutputShort(bytes)) => ClpiWriting {
            refusal: 23,
            bytes_needed: bytes as u32,
            bytes_written: 0,
        },
    }
}

// A refusal, or how long the new file is. The other number is 0.
#[repr(C)]
#[derive(Clone, Copy)]
pub struct ClpiLength {
    pub refusal: u32,
    pub bytes: u32,
}

// The numbers of a refusal of rewriting, by its own.
pub fn length_refused(refusal: u32) -> ClpiLength
    ensures { new_length_numbers result ≡ length_numbers (LengthAnswer.refused refusal) }
{
    ClpiLength { refusal, bytes: 0 }
}

// The numbers of a length. No `From`, since it asks that the length fits.
pub fn length_of(length: Result<usize, Refusal>) -> ClpiLength
    requires { length_in (length_of «length») < 2 ^ 32 }
    ensures { new_length_numbers result ≡ length_numbers (length_of «length») }
{
    match length {
        Ok(bytes) => ClpiLength {
            refusal: 0,
            bytes: bytes as u32,
        },
        Err(refusal) => length_refused(refusal.number()),
    }
}
