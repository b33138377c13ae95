// The sequences and the programs section, written from their tables: how long each is, and its bytes.
#![tactic(auto)]

ghost use Rattle.std.specs.Prelude.{◌≡◌, ◌+◌, ◌*◌, length};
ghost use Rattle.std.proofs.lemmas.List.Edits.{sets};
ghost use Rattle.row_values.specs.Kinds.{row_of};
ghost use Rattle.encode_sections.specs.Sections.{head_kind, row_kind, count_of, group_bytes, GroupThere, items_in, ItemsThere, section_in, Counted, Storable};

use encode_rows::{put_rows, rows_length};
use row_bytes::put_row;
use row_values::{Row, RowKind, cells_of, table_row};
use section_heads::{Section, put_head};
use table_rows::Table;

// The bytes of a header row in its table.
const HEAD: usize = 12;

// The kind of a section's header rows. A `match`, here and below: it picks data, which a trait with two impls would say at more length.
fn head_kind(section: Section) -> RowKind
    ensures { result ≡ head_kind section }
{
    match section {
        Section::Sequences => RowKind::Atc,
        Section::Programs => RowKind::Program,
    }
}

// The kind of the rows behind each header row.
fn row_kind(section: Section) -> RowKind
    ensures { result ≡ row_kind section }
{
    match section {
        Section::Sequences => RowKind::Stc,
        Section::Programs => RowKind::Stream,
    }
}

// How many rows stand behind a header row.
fn own_count(section: Section, head: Row) -> u32
    ensures { result ≡ count_of section (row_of (head_kind section) head) }
{
    match section {
        Section::Sequences => head[1],
        Section::Programs => head[2],
    }
}

// Stores a header row and its own rows, which stand from byte q of their table on; answers the place behind them.
fn put_group(section: Section, head: Row, rows: &[u8], q: usize, out: &mut [u8], at: usize) -> usize
    requires { GroupThere section (row_of (head_kind section) head) rows.now q out.old at }
    ensures value { result ≡ at + length (group_bytes section (row_of (head_kind section) head) rows.now q) }
    ensures out_after { out.new ≡ sets out.old at (group_bytes section (row_of (head_kind section) head) rows.now q) }
{
    let behind = put_row(head_kind(section), head, out, at);
    put_rows(
        row_kind(section),
        rows,
        q,
        own_count(section, head),
        out,
        behind,
    )
}

// Stores the header rows, each with its own rows behind it; answers the place behind them.
fn put_groups(section: Section, heads: Table, rows: &[u8], out: &mut [u8], at: usize) -> usize
    requires { ItemsThere section heads.bytes.now heads.rows rows.now out.old at }
    ensures value { result ≡ at + length (items_in section heads.entry.bytes.now heads.entry.rows rows.now) }
    ensures out_after { out.new ≡ sets out.old at (items_in section heads.entry.bytes.now heads.entry.rows rows.now) }
{
    let step = 4 * cells_of(row_kind(section));
    let mut q: usize = 0;
    let mut to = at;
    for k in 0..heads.rows as usize {
        let head = table_row(head_kind(section), heads.bytes, HEAD * k);
        to = put_group(section, head, rows, q, out, to);
        q += step * (own_count(section, head) as usize);
    }
    to
}

// How long the section is whose header rows and rows stand in these tables.
pub fn section_length(section: Section, heads: Table, rows: Table) -> usize
    requires { Counted section heads.bytes.now heads.rows rows.bytes.now rows.rows }
    ensures { result ≡ length (section_in section heads.entry.bytes.now heads.entry.rows rows.entry.bytes.now rows.entry.rows) }
{
    6 + rows_length(head_kind(section), heads) + rows_length(row_kind(section), rows)
}

// Stores the section of `len` bytes whose header rows and rows stand in these tables; answers the place behind it. The length is `section_length`'s answer, so that no row is measured twice.
pub fn put_section(
    section: Section,
    heads: Table,
    rows: Table,
    len: usize,
    out: &mut [u8],
    at: usize,
) -> usize
    requires { Storable section heads.bytes.now heads.rows rows.bytes.now rows.rows len out.old at }
    ensures value { result ≡ at + length (section_in section heads.entry.bytes.now heads.entry.rows rows.entry.bytes.now rows.entry.rows) }
    ensures out_after { out.new ≡ sets out.old at (section_in section heads.entry.bytes.now heads.entry.rows rows.entry.bytes.now rows.entry.rows) }
{
    put_head((len - 4) as u32, heads.rows, out, at);
    put_groups(section, heads, rows.bytes, out, at + 6)
}
