// The listing of a clip file: read into tables of 4,096 rows, and told line by line.
#![tactic(auto)]

ghost use Rattle.std.specs.Prelude.{◌≡◌, ◌≤◌, length};
ghost use Rattle.format.specs.Listing.{listing};
ghost use Rattle.listing.specs.Text.{Shows};
ghost use Rattle.clip_listing.specs.Told.{Shown, Tellable, numbers_by, answer_text, listing_room};

use clip_information::read::{Accepted, read};
use clip_prepare::ReadError;
use entry_rows::SIZE;
use listing::{Numbers, put_record, put_refusal, put_too_short};
use refusals::Refusal;
use table_rows::Table;

// The numbers of an accepted file that its text shows.
fn numbers_shown(accepted: Accepted) -> Numbers
    requires { Shown accepted.rows }
    ensures { result ≡ numbers_by accepted }
{
    let Accepted {
        info,
        marks,
        rows,
        ..
    } = accepted;
    Numbers {
        stream_type: info.clip_stream_type,
        application_type: info.application_type,
        rate: info.ts_recording_rate,
        packets: info.number_of_source_packets,
        atcs: rows.atcs as u32,
        stcs: rows.stcs as u32,
        programs: rows.programs as u32,
        streams: rows.streams as u32,
        marks,
    }
}

// Stores what reading answered, with the maps and entries that it filled, and answers the text's length.
fn put_answer(
    answer: Result<Accepted, ReadError>,
    maps: &[u8],
    entries: &[u8],
    out: &mut [u8],
) -> usize
    requires { Tellable answer maps.now entries.now out.old }
    ensures { Shows out.old (answer_text answer maps.now entries.now) result out.new }
{
    match answer {
        Ok(accepted) => {
            let maps = Table {
                bytes: maps,
                rows: accepted.rows.maps as u32,
            };
            let entries = Table {
                bytes: entries,
                rows: accepted.rows.entries as u32,
            };
            put_record(numbers_shown(accepted), maps, entries, out)
        }
        Err(ReadError::Refused(refusal)) => put_refusal(refusal.number(), out),
        Err(ReadError::TableShort(short)) => put_too_short(short.table, out),
    }
}

// Stores the listing of an input from the front of the output, and answers its length. An input of over 65,536 bytes is refused before it is read.
pub fn list(input: &[u8], out: &mut [u8]) -> usize
    requires { listing_room ≤ length out.old }
    ensures { Shows out.old (listing input.now) result out.new }
{
    if input.len() > 65536 {
        return put_refusal(Refusal::FileTooLong.number(), out);
    }
    // Tables of a fixed size: there is no heap.
    let mut atcs = [0; 49152];
    let mut stcs = [0; 65536];
    let mut programs = [0; 49152];
    let mut streams = [0; 81920];
    let mut maps = [0; 49152];
    let mut entries = [0; 4096 * SIZE];
    let mut extensions = [0; 65536];
    let mut programs2 = [0; 49152];
    let mut streams2 = [0; 81920];
    let answer = read(
        input,
        &mut atcs,
        &mut stcs,
        &mut programs,
        &mut streams,
        &mut maps,
        &mut entries,
        &mut extensions,
        &mut programs2,
        &mut streams2,
    );
    put_answer(answer, &maps, &entries, out)
}
