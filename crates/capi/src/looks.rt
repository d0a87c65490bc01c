// Looks, which change nothing. `shown` has what each finds in the head and the board.
ghost use Rattle.std.specs.Prelude.{◌≡◌};
ghost use Rattle.lent.specs.Lent.{records};
ghost use Rattle.shown.specs.Looks.{listed, left_in, panel_left, row_cells};
ghost use Rattle.capi.specs.Memory.{worker_in};
ghost use Rattle.capi.specs.Looks.{state_look, stats_look, counts_look, group_cells, group_count, group_check, table_count, table_check, panel_bytes, panel_code, panel_count, tag_look};

use super::whole::{board_of, head_of, size_check};
use shown::counts::{CountsLook, counts_of, no_counts};
use shown::head::{StateLook, StatsLook, no_state, no_stats, state_of, stats_of};
use shown::list_looks::{ListLook, group_stats, listed, panel, table};
use shown::tag::{TagLook, no_look};

// The state and the version.
pub fn wz_state(mem: &[u8]) -> StateLook
    ensures { result ≡ state_look mem.now }
{
    if let Err(refusal) = size_check(mem.len()) {
        return no_state(refusal.number() as u64);
    }
    state_of(head_of(mem).link)
}

// The statistics of the rounds.
pub fn wz_stats(mem: &[u8]) -> StatsLook
    ensures { result ≡ stats_look mem.now }
{
    if let Err(refusal) = size_check(mem.len()) {
        return no_stats(refusal.number() as u64);
    }
    stats_of(head_of(mem).stats)
}

// How many tags are in each tier.
pub fn wz_tier_counts(mem: &[u8]) -> CountsLook
    ensures { result ≡ counts_look mem.now }
{
    if let Err(refusal) = size_check(mem.len()) {
        return no_counts(refusal.number() as u64);
    }
    counts_of(board_of(mem))
}

// The groups' statistics: number, rate, tags in tier 1, 1 where there is a period, and its bits.
pub fn wz_group_stats(mem: &[u8], out: &mut [u8]) -> ListLook
    ensures value { result ≡ listed (group_check mem.now out.old) (group_count (worker_in mem.now) out.old) }
    ensures out_after { out.new ≡ left_in (group_check mem.now out.old) out.old (group_cells (worker_in mem.now)) }
{
    if let Err(refusal) = size_check(mem.len()) {
        return listed(refusal.number() as u64, 0);
    }
    group_stats(board_of(mem), out)
}

// The table in table order: tag and tier.
pub fn wz_table(mem: &[u8], out: &mut [u8]) -> ListLook
    ensures value { result ≡ listed (table_check mem.now out.old) (table_count (worker_in mem.now) out.old) }
    ensures out_after { out.new ≡ left_in (table_check mem.now out.old) out.old (records (row_cells (worker_in mem.now).board) (worker_in mem.now).board.table.order) }
{
    if let Err(refusal) = size_check(mem.len()) {
        return listed(refusal.number() as u64, 0);
    }
    table(board_of(mem), out)
}

// The panel list; `count` is its length in bytes.
pub fn wz_panel(mem: &[u8], out: &mut [u8]) -> ListLook
    ensures value { result ≡ listed (panel_code mem.now out.old) (panel_count (worker_in mem.now) out.old) }
    ensures out_after { out.new ≡ panel_left (panel_code mem.now out.old) out.old (panel_bytes (worker_in mem.now)) }
{
    if let Err(refusal) = size_check(mem.len()) {
        return listed(refusal.number() as u64, 0);
    }
    panel(board_of(mem), out)
}

// A tag: its tier, its cached entry and its description.
pub fn wz_tag(mem: &[u8], tag: u32) -> TagLook
    ensures { result ≡ tag_look mem.now tag }
{
    if let Err(refusal) = size_check(mem.len()) {
        return no_look(refusal.number() as u64);
    }
    shown::tag::tag(board_of(mem), head_of(mem).count, tag)
}
