// Reading, with its answer as one struct of numbers.
ghost use Rattle.std.specs.Prelude.{◌≡◌};
ghost use Rattle.format.specs.Refusals.{read_answer, read_numbers, tables_after};
ghost use Rattle.clip_information.specs.Read.{nine_tables_of};
ghost use Rattle.clpi_reading.specs.Numbers.{reading_numbers};

use clpi_reading::ClpiReading;

// Reads a clip file into nine tables; a refusal leaves every table as it was.
#[unsafe(no_mangle)]
pub extern "C" fn clpi_read(
    file: &[u8],
    atcs: &mut [u8],
    stcs: &mut [u8],
    programs: &mut [u8],
    streams: &mut [u8],
    maps: &mut [u8],
    entries: &mut [u8],
    extensions: &mut [u8],
    programs2: &mut [u8],
    streams2: &mut [u8],
) -> ClpiReading
    ensures result_value { reading_numbers result ≡ read_numbers (read_answer file.now (nine_tables_of atcs.old stcs.old programs.old streams.old maps.old entries.old extensions.old programs2.old streams2.old)) }
    ensures streams2_after { nine_tables_of atcs.new stcs.new programs.new streams.new maps.new entries.new extensions.new programs2.new streams2.new ≡ tables_after file.now (nine_tables_of atcs.old stcs.old programs.old streams.old maps.old entries.old extensions.old programs2.old streams2.old) }
{
    clpi::read::clpi_read(
        file, atcs, stcs, programs, streams, maps, entries, extensions, programs2, streams2,
    )
}
