// Everything that reading tests before it touches a table: every section, the (2, 5) list, the lent tables.
#![tactic(auto)]

pub mod list;

ghost use Rattle.std.specs.Prelude.{◌≡◌};
ghost use Rattle.clip_prepare.specs.Prepare.{PreparedIs};
ghost use Rattle.clip_prepare.specs.declared.ReadError.{ReadError};

use crate::list::measure_list;
use clip_sections::sections::measure;
use common::header::Starts;
use extension::ListData;
use info_sections::SectionCounts;
use nine_tables::{Rows, TableShort, table_room};
use refusals::Refusal;

// Why a file is not read: a refusal, or the lowest table that is too short.
#[derive(Clone, Copy)]
pub enum ReadError {
    Refused(Refusal),
    TableShort(TableShort),
}

impl From<Refusal> for ReadError {
    ghost from_gives = { λ refusal error. error ≡ ReadError.Refused refusal };

    fn from(refusal: Refusal) -> ReadError {
        ReadError::Refused(refusal)
    }
}

impl From<TableShort> for ReadError {
    ghost from_gives = { λ short error. error ≡ ReadError.TableShort short };

    fn from(short: TableShort) -> ReadError {
        ReadError::TableShort(short)
    }
}

// What puts the rows into the tables: the rows of each, the data with the ids of the (2, 5) list, and the same data where it is a list of programs.
#[derive(Clone, Copy)]
pub struct Prepared {
    pub rows: Rows,
    pub data: Option<ListData>,
    pub list: Option<ListData>,
}

// The sections, then the extensions, then the lent tables, of which the lengths in bytes are given.
pub fn prepare(file: &[u8], bytes: Rows) -> Result<Prepared, ReadError>
    ensures { PreparedIs file.now bytes result }
{
    let sections = measure(file)?;
    let found = extension::measure(file, Starts::read(file).extensions);
    let second = measure_list(file, found.list);
    let listed = second.unwrap_or(SectionCounts { heads: 0, rows: 0 });
    let rows = Rows {
        atcs: sections.atcs,
        stcs: sections.stcs,
        programs: sections.programs,
        streams: sections.streams,
        maps: sections.maps,
        entries: sections.entries,
        extensions: found.rows,
        list_programs: listed.heads,
        list_streams: listed.rows,
    };
    table_room(rows, bytes)?;
    Ok(Prepared {
        rows,
        data: found.list,
        list: second.and(found.list),
    })
}
