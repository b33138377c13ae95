// The extension block: which entries are kept, where the second list of programs stands, and table 7.
#![tactic(auto)]

ghost use Rattle.std.specs.Prelude.{◌≡◌, ◌+◌, ◌≤◌, length, Some};
ghost use Rattle.std.proofs.lemmas.List.Edits.{sets};
ghost use Rattle.format.specs.Extensions.{extension_rows, extensions_from};
ghost use Rattle.format.specs.Tables.{table_bytes, row_room, overwritten, extension_cells};
ghost use Rattle.extension.specs.Block.{block_head, Block, InBlock, EntryIs, entry_rows_of, entry_list, rows_in, extensions_in, MeasuredIs, PutIs};

use cells::put_row;
use common::reader::Reader;
use numbers::u32_at;

// The head and each entry, in bytes.
const SIZE: usize = 12;

// A row of table 7, in bytes.
const ROW: usize = 16;

// The first id of the entry that holds a list of programs.
const EXT_ID1_PROGRAM_INFO_SS: u32 = 2;

// And the second.
const EXT_ID2_PROGRAM_INFO_SS: u32 = 5;

// Where the data of a kept entry with the list's ids stands in the file.
#[derive(Clone, Copy)]
pub struct ListData {
    pub start: usize,
    pub len: usize,
}

// What the measuring pass finds: the rows of table 7, and the first kept entry with the list's ids.
#[derive(Clone, Copy)]
pub struct MeasuredBlock {
    pub rows: usize,
    pub list: Option<ListData>,
}

// The head of a block with entries: how many follow, and where data may end.
#[derive(Clone, Copy)]
struct BlockHead {
    n: usize,
    end: usize,
}

// An entry that is kept: its ids and where its data stands in the file.
#[derive(Clone, Copy)]
struct ExtensionDataEntry {
    id1: u32,
    id2: u32,
    start: u32,
    len: u32,
}

// The head of the block that starts at `start`, read by the reader; none where no entries are read.
fn head_at(file: &[u8], start: usize) -> Option<BlockHead>
    requires { length file.now ≤ 536870912 }
    ensures { result ≡ block_head file.now start }
{
    if start == 0 {
        return None;
    }
    if start >= file.len() {
        return None;
    }
    let front = Reader::new().seek(file, start)?;
    let (length, ignored) = front.read::<4>(file)?;
    if length == 0 {
        return None;
    }
    let (n, entries) = ignored.skip(file, 7)?.read::<1>(file)?;
    entries.skip(file, SIZE * (n as usize))?;
    Some(BlockHead {
        n: n as usize,
        end: (start + 4 + (length as usize)).min(file.len()),
    })
}

// The entry at p of a block whose data may end at `end`; none where it is left out.
fn entry_at(file: &[u8], start: usize, end: usize, p: usize) -> Option<ExtensionDataEntry>
    requires { InBlock file.now start end p }
    ensures { EntryIs file.now start p result }
{
    let addr = u32_at::<4>(file, p + 4);
    let len = u32_at::<4>(file, p + 8);
    if addr == 0 {
        return None;
    }
    let s = start + (addr as usize);
    if s + (len as usize) > end {
        return None;
    }
    Some(ExtensionDataEntry {
        id1: u32_at::<2>(file, p),
        id2: u32_at::<2>(file, p + 2),
        start: s as u32,
        len,
    })
}

// Where the list stands, if the entry has the list's ids.
fn list_of(entry: ExtensionDataEntry) -> Option<ListData>
    ensures { result ≡ entry_list (Some entry) }
{
    if entry.id1 != EXT_ID1_PROGRAM_INFO_SS {
        return None;
    }
    if entry.id2 != EXT_ID2_PROGRAM_INFO_SS {
        return None;
    }
    Some(ListData {
        start: entry.start as usize,
        len: entry.len as usize,
    })
}

// Counts the rows of a block's entries and finds its list.
fn measure_entries(file: &[u8], start: usize, head: BlockHead) -> MeasuredBlock
    requires { Block file.now start head.n head.end }
    ensures { MeasuredIs file.now (rows_in file.now start head.n) (extensions_in file.now (rows_in file.now start head.n)) result }
{
    let mut rows: usize = 0;
    let mut list: Option<ListData> = None;
    for k in 0..head.n {
        let p = start + SIZE + SIZE * k;
        if let Some(entry) = entry_at(file, start, head.end, p) {
            rows += 1;
            list = list.or(list_of(entry));
        }
    }
    MeasuredBlock { rows, list }
}

// The measuring pass: how many rows table 7 gets, and where the list stands.
pub fn measure(file: &[u8], start: usize) -> MeasuredBlock
    requires { length file.now ≤ 536870912 }
    ensures { MeasuredIs file.now (extension_rows file.now start) (extensions_from file.now start) result }
{
    match head_at(file, start) {
        Some(head) => measure_entries(file, start, head),
        None => MeasuredBlock {
            rows: 0,
            list: None,
        },
    }
}

// Stores the rows of a block's entries.
fn fill_entries(file: &[u8], start: usize, head: BlockHead, table: &mut [u8])
    requires { (Block file.now start head.n head.end) × (length (table_bytes (rows_in file.now start head.n)) ≤ length table.old) }
    ensures { table.new ≡ sets table.old 0 (table_bytes (rows_in file.now start head.n)) }
{
    let mut at: usize = 0;
    for k in 0..head.n {
        let p = start + SIZE + SIZE * k;
        if let Some(entry) = entry_at(file, start, head.end, p) {
            put_row(table, at, [entry.id1, entry.id2, entry.start, entry.len]);
            at += ROW;
        }
    }
}

// The storing pass: table 7, in a table with room for the rows that `measure` counts.
pub fn fill(file: &[u8], start: usize, table: &mut [u8])
    requires { (length file.now ≤ 536870912) × (length (extension_rows file.now start) ≤ row_room extension_cells table.old) }
    ensures { table.new ≡ overwritten (table_bytes (extension_rows file.now start)) table.old }
{
    if let Some(head) = head_at(file, start) {
        fill_entries(file, start, head, table);
    }
}
