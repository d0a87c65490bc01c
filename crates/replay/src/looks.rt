// Looks: the numbers that each answers, in the order in which a frame has them.
ghost use Rattle.std.specs.Prelude.{◌≡◌, ◌<◌, length, drop, MatchResult};
ghost use Rattle.lent.specs.Lent.{records};
ghost use Rattle.shown.specs.Looks.{listed, left_in, panel_left, row_cells};
ghost use Rattle.capi.specs.Memory.{worker_in};
ghost use Rattle.capi.specs.Looks.{state_look, stats_look, counts_look, group_cells, group_count, group_check, table_count, table_check, panel_bytes, panel_code, panel_count, tag_look};
ghost use Rattle.frames.specs.Numbers.{eight_at};
ghost use Rattle.replay.specs.Answers as numbers;
ghost use Rattle.replay.specs.Answers.{low};

use crate::calls::small;
use capi::looks::{wz_group_stats, wz_panel, wz_state, wz_stats, wz_table, wz_tag, wz_tier_counts};
use frames::parts::{Malformed, Reader};
use words::scalar::{word_of_float, word_of_int};

pub fn state(mem: &[u8]) -> [u64; 4]
    ensures { result ≡ numbers.state (state_look mem.now) }
{
    let r = wz_state(mem);
    [r.code, r.state, r.known, r.version]
}

pub fn stats(mem: &[u8]) -> [u64; 9]
    ensures { result ≡ numbers.stats (stats_look mem.now) }
{
    let r = wz_stats(mem);
    [
        r.code,
        r.timed,
        word_of_float(r.ms),
        word_of_int(r.ts),
        r.reads,
        r.tags,
        r.overruns,
        r.reconnects,
        r.reloads,
    ]
}

pub fn tier_counts(mem: &[u8]) -> [u64; 4]
    ensures { result ≡ numbers.tier_counts (counts_look mem.now) }
{
    let r = wz_tier_counts(mem);
    [r.code, r.tier1, r.tier2, r.tier3]
}

pub fn group_stats(mem: &[u8], out: &mut [u8]) -> [u64; 2]
    ensures value { result ≡ numbers.counted (listed (group_check mem.now out.old) (group_count (worker_in mem.now) out.old)) }
    ensures out_after { out.new ≡ left_in (group_check mem.now out.old) out.old (group_cells (worker_in mem.now)) }
{
    let r = wz_group_stats(mem, out);
    [r.code, r.count]
}

pub fn table(mem: &[u8], out: &mut [u8]) -> [u64; 2]
    ensures value { result ≡ numbers.counted (listed (table_check mem.now out.old) (table_count (worker_in mem.now) out.old)) }
    ensures out_after { out.new ≡ left_in (table_check mem.now out.old) out.old (records (row_cells (worker_in mem.now).board) (worker_in mem.now).board.table.order) }
{
    let r = wz_table(mem, out);
    [r.code, r.count]
}

pub fn panel(mem: &[u8], out: &mut [u8]) -> [u64; 2]
    ensures value { result ≡ numbers.counted (listed (panel_code mem.now out.old) (panel_count (worker_in mem.now) out.old)) }
    ensures out_after { out.new ≡ panel_left (panel_code mem.now out.old) out.old (panel_bytes (worker_in mem.now)) }
{
    let r = wz_panel(mem, out);
    [r.code, r.count]
}

pub fn tag(frame: &mut Reader, mem: &[u8]) -> Result<[u64; 11], Malformed>
    ensures { MatchResult result (λ ns. (ns ≡ numbers.tag (tag_look mem.now (low (eight_at frame.old.rest.now 0)))) × (frame.new.rest.now ≡ drop 8 frame.old.rest.now)) (λ _. length frame.old.rest.now < 8) }
{
    let r = wz_tag(mem, small(frame)?);
    Ok([
        r.code,
        r.tier,
        r.held,
        r.kind,
        r.word,
        r.t,
        r.error,
        r.message,
        r.has_g,
        r.g,
        r.description,
    ])
}
