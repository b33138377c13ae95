// The (2, 5) list: the data of an extension, taken as a file of its own and read as programs from 0.
ghost use Rattle.std.specs.Prelude.{◌≡◌, ◌≤◌, length};
ghost use Rattle.extension.specs.Block.{found_in, list_end};
ghost use Rattle.clip_prepare.specs.Lists.{list_rows_of};

use extension::ListData;
use info_sections::SectionCounts;
use section_heads::Section;

// The rows of the list; none where there is no data, and where it is no list of programs.
pub(crate) fn measure_list(file: &[u8], list: Option<ListData>) -> Option<SectionCounts>
    requires { list_end list ≤ length file.now }
    ensures { result ≡ list_rows_of (found_in file.now list) }
{
    let data = list?;
    let end = data.start + data.len;
    info_sections::measure(Section::Programs, &file[data.start..end], 0)
}
