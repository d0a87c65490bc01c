// Sizes in bytes, for hosts that would rather ask than copy numbers.
ghost use Rattle.std.specs.Prelude.{◌≡◌};
ghost use Rattle.capi.specs.Memory.{interface_number, size_for, list_size, group_stats_size, table_size, panel_size};

use super::whole::memory_size;
use lent::changes::CHANGE;
use names::directory::MAX_NAMES;
use shown::list_looks::PANEL;

// The number of this interface, for a host to compare with the one that it was compiled for.
pub fn wz_interface() -> u64
    ensures { result ≡ interface_number }
{
    2
}

// An engine for so many names; 0 for a count that no directory has.
pub fn wz_memory_size(count: u32) -> u64
    ensures { result ≡ size_for count }
{
    if count == 0 {
        return 0;
    }
    if (MAX_NAMES as u32) < count {
        return 0;
    }
    memory_size(count as usize) as u64
}

// The list that a step is lent: a change for every name that a directory can have, whatever the count.
pub fn wz_list_size(_count: u32) -> u64
    ensures { result ≡ list_size }
{
    (MAX_NAMES * CHANGE) as u64
}

// The list that `wz_group_stats` is lent: 16 groups of five cells.
pub fn wz_group_stats_size() -> u64
    ensures { result ≡ group_stats_size }
{
    640
}

// The list that `wz_table` is lent: two cells for every name that a directory can have, whatever the count.
pub fn wz_table_size(_count: u32) -> u64
    ensures { result ≡ table_size }
{
    (MAX_NAMES * 16) as u64
}

// The buffer that `wz_panel` is lent: a list of as many tags as a directory can have.
pub fn wz_panel_size() -> u64
    ensures { result ≡ panel_size }
{
    PANEL as u64
}
