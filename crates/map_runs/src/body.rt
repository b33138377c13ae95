// The body of a map made anew: fine address, coarse rows, fine rows.
ghost use Rattle.std.specs.Prelude.{◌≡◌, ◌+◌, ◌*◌, length};
ghost use Rattle.std.proofs.lemmas.List.Edits.{sets};
ghost use Rattle.std.proofs.Common.{rules};
ghost use Rattle.format.specs.Bytes.{flat, packed};
ghost use Rattle.format.specs.EntryPoints.{fine_widths};
ghost use Rattle.format.proofs.Numbers.{bytes_length};
ghost use Rattle.format.specs.Rewriting.{coarse_rows, runs, coarse_bytes, fine_row, fine_bytes, body_bytes};
ghost use Rattle.ep_entries.specs.Body.{entries_in};
ghost use Rattle.ep_entries.specs.Entries.{entry_by};
ghost use Rattle.map_runs.specs.Entries.{CoarseRoom, BodyRoom};

use crate::walked::{meet, run_end};
use ep_entries::body::MapBody;
use ep_entries::entries::{EntryForm, join, put_entries};
use ep_entries::walk::Walk;
use map_rows::{put_coarse_row, put_fine_row};
use numbers::put_u32;

// The coarse rows of the map's runs, from `at`: each has the time and the full packet of its run's first entry. Answers the place behind them.
fn put_coarse(file: &[u8], m: MapBody, out: &mut [u8], at: usize) -> usize
    requires { CoarseRoom file.now m (length out.old) at }
    ensures value { result ≡ at + 8 * runs (entries_in file.now m) }
    ensures out_after { out.new ≡ sets out.old at (flat coarse_bytes (coarse_rows (entries_in file.now m))) }
{
    let mut walk = Walk::start(file, m);
    let mut to = at;
    let mut k: usize = 0;
    // a `while`: each turn goes on by a whole run
    while k < m.num_fine {
        let first = meet(file, m, k, walk);
        let end = run_end(file, m, k, first);
        put_coarse_row(k as u32, first.entry, out, to);
        to += 8;
        walk = end.walk;
        k = end.row;
    }
    to
}

// Entries as fine rows: the low bits of each entry's own time and packet.
struct FineForm;

impl EntryForm for FineForm {
    const SIZE: usize = 4;

    ghost SIZE = { 4 };

    ghost bytes = { fine_bytes };

    fn put(word: u32, w: Walk, kind: u32, out: &mut [u8], at: usize) {
        put_fine_row(join(word, w, kind), out, at);
    }

    ghost long = { λ kind time packet fine. bytes_length 4 (packed fine_widths (fine_row (entry_by kind time packet fine))) };

    ghost small = { Prim.search rules };
}

// The map's body, from `at`. The fine address is known once the coarse rows stand. Answers how many runs there are.
pub fn put_body(file: &[u8], m: MapBody, out: &mut [u8], at: usize) -> usize
    requires { BodyRoom file.now m (length out.old) at }
    ensures value { result ≡ runs (entries_in file.now m) }
    ensures out_after { out.new ≡ sets out.old at (body_bytes (entries_in file.now m)) }
{
    let fine = put_coarse(file, m, out, at + 4);
    put_u32::<4>(out, at, (fine - at) as u32);
    put_entries::<FineForm>(file, m, out, fine);
    (fine - at - 4) / 8
}
