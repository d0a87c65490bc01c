// Creation.
ghost use Rattle.capi.specs.Creation.{Created};

use super::whole::{create, memory_size, put_head};
use checks::creation::creation_check;
use engine::Engine;
use heads::options::Options;
use names::directory::{Directory, MAX_NAMES};
use refusals::Refusal;

// An engine in lent memory, whose length goes by the number of names. The names and all else that is handed in are needed
// for this call alone.
pub fn wz_create<'a>(
    mem: &mut [u8],
    names: &'a [u8],
    ends: &'a [u32],
    options: Options,
    settings: &[u8],
    groups: &[u8],
) -> u32
    ensures { Created mem.old mem.new result (record { names = names.now; ends = ends.now; options = options; settings = settings.now; groups = groups.now }) }
{
    let directory = Directory { names, ends };
    let count = ends.len();
    if count == 0 || MAX_NAMES < count {
        return Refusal::NameCount.number();
    }
    if mem.len() != memory_size(count) {
        return Refusal::NotAnEngine.number();
    }
    if let Err(refusal) = creation_check(directory, options, settings, groups) {
        return refusal.number();
    }
    create(mem, directory, settings, groups);
    put_head(mem, Engine::fresh(options, count as u16));
    0
}
