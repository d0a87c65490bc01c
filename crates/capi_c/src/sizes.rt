// Sizes in bytes, as in `capi`.
ghost use Rattle.std.specs.Prelude.{◌≡◌};
ghost use Rattle.capi.specs.Memory.{interface_number, size_for, list_size, group_stats_size, table_size, panel_size};

use capi::sizes;

// The number of this interface, for a host to compare with the one that it was compiled for.
#[unsafe(no_mangle)]
pub extern "C" fn wz_interface() -> u64
    ensures { result ≡ interface_number }
{
    sizes::wz_interface()
}

// An engine for so many names; 0 for a count that no directory has.
#[unsafe(no_mangle)]
pub extern "C" fn wz_memory_size(count: u32) -> u64
    ensures { result ≡ size_for count }
{
    sizes::wz_memory_size(count)
}

// The list that a step is lent: a change for every name that a directory can have, whatever the count.
#[unsafe(no_mangle)]
pub extern "C" fn wz_list_size(_count: u32) -> u64
    ensures { result ≡ list_size }
{
    sizes::wz_list_size(_count)
}

// The list that `wz_group_stats` is lent: 16 groups of five cells.
#[unsafe(no_mangle)]
pub extern "C" fn wz_group_stats_size() -> u64
    ensures { result ≡ group_stats_size }
{
    sizes::wz_group_stats_size()
}

// The list that `wz_table` is lent: two cells for every name that a directory can have, whatever the count.
#[unsafe(no_mangle)]
pub extern "C" fn wz_table_size(_count: u32) -> u64
    ensures { result ≡ table_size }
{
    sizes::wz_table_size(_count)
}

// The buffer that `wz_panel` is lent: a list of as many tags as a directory can have.
#[unsafe(no_mangle)]
pub extern "C" fn wz_panel_size() -> u64
    ensures { result ≡ panel_size }
{
    sizes::wz_panel_size()
}
