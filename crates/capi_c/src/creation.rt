// Creation, as in `capi`.
ghost use Rattle.capi.specs.Creation.{Created};

use capi::creation;
use heads::options::Options;

// An engine in lent memory, whose length goes by the number of names. The names and all else that is handed in are needed
// for this call alone.
#[unsafe(no_mangle)]
pub extern "C" fn wz_create<'a>(
    mem: &mut [u8],
    names: &'a [u8],
    ends: &'a [u32],
    options: Options,
    settings: &[u8],
    groups: &[u8],
) -> u32
    ensures { Created mem.old mem.new result (record { names = names.now; ends = ends.now; options = options; settings = settings.now; groups = groups.now }) }
{
    creation::wz_create(mem, names, ends, options, settings, groups)
}
