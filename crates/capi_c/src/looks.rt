// Looks, which change nothing, as in `capi`.
ghost use Rattle.std.specs.Prelude.{◌≡◌};
ghost use Rattle.lent.specs.Lent.{records};
ghost use Rattle.shown.specs.Looks.{listed, left_in, panel_left, row_cells};
ghost use Rattle.capi.specs.Memory.{worker_in};
ghost use Rattle.capi.specs.Looks.{state_look, stats_look, counts_look, group_cells, group_count, group_check, table_count, table_check, panel_bytes, panel_code, panel_count, tag_look};

use capi::looks;
use shown::counts::CountsLook;
use shown::head::{StateLook, StatsLook};
use shown::list_looks::ListLook;
use shown::tag::TagLook;

// The state and the version.
#[unsafe(no_mangle)]
pub extern "C" fn wz_state(mem: &[u8]) -> StateLook
    ensures { result ≡ state_look mem.now }
{
    looks::wz_state(mem)
}

// The statistics of the rounds.
#[unsafe(no_mangle)]
pub extern "C" fn wz_stats(mem: &[u8]) -> StatsLook
    ensures { result ≡ stats_look mem.now }
{
    looks::wz_stats(mem)
}

// How many tags are in each tier.
#[unsafe(no_mangle)]
pub extern "C" fn wz_tier_counts(mem: &[u8]) -> CountsLook
    ensures { result ≡ counts_look mem.now }
{
    looks::wz_tier_counts(mem)
}

// The groups' statistics: number, rate, tags in tier 1, 1 where there is a period, and its bits.
#[unsafe(no_mangle)]
pub extern "C" fn wz_group_stats(mem: &[u8], out: &mut [u8]) -> ListLook
    ensures value { result ≡ listed (group_check mem.now out.old) (group_count (worker_in mem.now) out.old) }
    ensures out_after { out.new ≡ left_in (group_check mem.now out.old) out.old (group_cells (worker_in mem.now)) }
{
    looks::wz_group_stats(mem, out)
}

// The table in table order: tag and tier.
#[unsafe(no_mangle)]
pub extern "C" fn wz_table(mem: &[u8], out: &mut [u8]) -> ListLook
    ensures value { result ≡ listed (table_check mem.now out.old) (table_count (worker_in mem.now) out.old) }
    ensures out_after { out.new ≡ left_in (table_check mem.now out.old) out.old (records (row_cells (worker_in mem.now).board) (worker_in mem.now).board.table.order) }
{
    looks::wz_table(mem, out)
}

// The panel list; `count` is its length in bytes.
#[unsafe(no_mangle)]
pub extern "C" fn wz_panel(mem: &[u8], out: &mut [u8]) -> ListLook
    ensures value { result ≡ listed (panel_code mem.now out.old) (panel_count (worker_in mem.now) out.old) }
    ensures out_after { out.new ≡ panel_left (panel_code mem.now out.old) out.old (panel_bytes (worker_in mem.now)) }
{
    looks::wz_panel(mem, out)
}

// A tag: its tier, its cached entry and its description.
#[unsafe(no_mangle)]
pub extern "C" fn wz_tag(mem: &[u8], tag: u32) -> TagLook
    ensures { result ≡ tag_look mem.now tag }
{
    looks::wz_tag(mem, tag)
}
