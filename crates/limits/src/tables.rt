// Whether the tables of a record but that of the entries fit: at most 255 ATCs, programs and maps, and every row.
ghost use Rattle.std.specs.Prelude.{◌≡◌};
ghost use Rattle.queries.specs.Asked.{no_scalars};
ghost use Rattle.limits.specs.Clips.{heads_fit, groups_fit, tables_fit};
ghost use Rattle.limits.specs.Rows.{rows_of_kind};
ghost use Rattle.limits.specs.Stated.{stated_tables, TablesThere};

use crate::rows::KindRows;
use row_limits::TableKind;
use row_values::RowKind;
use table_rows::Table;

// The most ATCs, programs or maps.
const MOST: u32 = 255;

// The six tables of a record that is handed over.
#[derive(Clone, Copy)]
pub struct ClipTables<'a> {
    pub atcs: Table<'a>,
    pub stcs: Table<'a>,
    pub programs: Table<'a>,
    pub streams: Table<'a>,
    pub maps: Table<'a>,
    pub entries: Table<'a>,
}

// Whether rows with a count are few enough, and every one fits.
fn heads_fit(heads: KindRows) -> bool
    ensures { result ≡ heads_fit heads.entry.kind (rows_of_kind heads.entry) }
{
    heads.table.rows <= MOST && heads.fit()
}

// Whether rows with a count fit, and the rows that they count.
fn groups_fit(heads: KindRows, rows: KindRows) -> bool
    ensures { result ≡ groups_fit heads.entry.kind rows.entry.kind (rows_of_kind heads.entry) (rows_of_kind rows.entry) }
{
    heads_fit(heads) && rows.fit()
}

// Whether every table but that of the entries fits, else 30. That the rows are there is tested before; the entries are tested in the walk that counts their runs.
#[tactic(auto, unfolding(crate::specs::Clips::tables_fit))]
pub fn cells_fit(tables: ClipTables) -> bool
    requires { TablesThere tables }
    ensures { result ≡ tables_fit (stated_tables no_scalars tables.entry) }
{
    let atcs = KindRows {
        kind: TableKind::Info(RowKind::Atc),
        table: tables.atcs,
    };
    let stcs = KindRows {
        kind: TableKind::Info(RowKind::Stc),
        table: tables.stcs,
    };
    let programs = KindRows {
        kind: TableKind::Info(RowKind::Program),
        table: tables.programs,
    };
    let streams = KindRows {
        kind: TableKind::Info(RowKind::Stream),
        table: tables.streams,
    };
    let maps = KindRows {
        kind: TableKind::Map,
        table: tables.maps,
    };
    groups_fit(atcs, stcs) && groups_fit(programs, streams) && heads_fit(maps)
}
