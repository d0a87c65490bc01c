// What looks find on the board.
ghost use Rattle.std.specs.Prelude.{◌≡◌, length};
ghost use Rattle.lent.specs.Lent.{cell_bytes, wrote_all, records, record_put};
ghost use Rattle.panel.specs.Panel.{panel_of, written, written_length};
ghost use Rattle.statistics.specs.Counts.{tier_count};
ghost use Rattle.statistics.specs.Stats.{group_stats, groups_told};
ghost use Rattle.board.specs.Layout.{IsBoard};
ghost use Rattle.board.specs.Board.{board_in};
ghost use Rattle.shown.specs.Looks.{facts_of, row_cells};

use board::parts::{configured_of, groups_of, order_of, recorded_of, table_of};
use board::tag::tier_of;
use board::tag_lists::{order_at, order_count};

// Rule 10: how many tags are in a tier.
pub fn tier_count(board: &[u8], tier: u8) -> usize
    requires { IsBoard board.now }
    ensures { result ≡ tier_count tier (board_in board.now).table.tags (board_in board.now).table.order }
{
    statistics::counts::tier_count(table_of(board), order_of(board), tier)
}

// Rule 11: the panel list.
pub fn write_panel(board: &[u8], out: &mut [u8]) -> usize
    requires { IsBoard board.now }
    ensures value { result ≡ written_length out.old (panel_of (board_in board.now).table.tags (board_in board.now).table.order) }
    ensures out_after { out.new ≡ written out.old (panel_of (board_in board.now).table.tags (board_in board.now).table.order) }
{
    panel::write::write_panel(table_of(board), order_of(board), out)
}

// Rule 10: group statistics.
pub fn group_stats(board: &[u8], out: &mut [u8]) -> usize
    requires { IsBoard board.now }
    ensures value { result ≡ groups_told out.old (facts_of (board_in board.now)) }
    ensures out_after { out.new ≡ wrote_all out.old (cell_bytes (group_stats (facts_of (board_in board.now)))) }
{
    statistics::group_stats(
        table_of(board),
        order_of(board),
        configured_of(board),
        groups_of(board),
        recorded_of(board),
        out,
    )
}

fn put_row(board: &[u8], out: &mut [u8], i: usize, k: usize)
    requires { IsBoard board.now }
    ensures { out.new ≡ record_put out.old i (row_cells (board_in board.now) k) }
{
    lent::put_record(out, i, &[k as u64, tier_of(board, k) as u64]);
}

// The table in table order: tag and tier. Where there is no room for all of it nothing is written.
pub fn put_table(board: &[u8], out: &mut [u8]) -> usize
    requires { IsBoard board.now }
    ensures value { result ≡ length (board_in board.now).table.order }
    ensures out_after { out.new ≡ wrote_all out.old (cell_bytes (records (row_cells (board_in board.now)) (board_in board.now).table.order)) }
{
    let n = order_count(board);
    if out.len() / 16 < n {
        return n;
    }
    for i in 0..n {
        put_row(board, out, 2 * i, order_at(board, i));
    }
    n
}
