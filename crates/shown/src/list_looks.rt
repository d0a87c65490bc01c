// Lists that are lent for writing: group statistics, the table, the panel list. Check 43 is the first of each.
ghost use Rattle.std.specs.Prelude.{◌≡◌, ◌/◌, length};
ghost use Rattle.names.specs.Directory.{max_names};
ghost use Rattle.lent.specs.Lent.{records};
ghost use Rattle.panel.specs.Panel.{panel_room};
ghost use Rattle.board.specs.Layout.{IsBoard};
ghost use Rattle.board.specs.Board.{board_in};
ghost use Rattle.shown.specs.Looks.{listed, short_of, left_in, group_cells, group_count, fitting, table_count, panel_bytes, panel_count, panel_left, row_cells};

use names::directory::MAX_NAMES;

// The bytes of a panel list with as many tags as a directory can have.
pub const PANEL: usize = 1 + 2 * MAX_NAMES;

// How many records, or bytes, a lent list has.
#[repr(C)]
#[derive(Clone, Copy)]
pub struct ListLook {
    pub code: u64,
    pub count: u64,
}

pub fn listed(code: u64, n: usize) -> ListLook
    ensures { result ≡ listed code n }
{
    let count = if code == 0 { n as u64 } else { 0 };
    ListLook { code, count }
}

// The groups' statistics: number, rate, tags in tier 1, 1 where there is a period, and its bits.
pub fn group_stats(board: &[u8], out: &mut [u8]) -> ListLook
    requires { IsBoard board.now }
    ensures value { result ≡ listed (short_of (length out.old / 40) 16) (group_count (board_in board.now) out.old) }
    ensures out_after { out.new ≡ left_in (short_of (length out.old / 40) 16) out.old (group_cells (board_in board.now)) }
{
    if out.len() / 40 < 16 {
        return listed(43, 0);
    }
    listed(0, super::found::group_stats(board, out))
}

// As many as there is room for: all or none.
fn fitting(n: usize, places: usize) -> usize
    ensures { result ≡ fitting n places }
{
    if places < n { 0 } else { n }
}

// The table in table order: tag and tier.
pub fn table(board: &[u8], out: &mut [u8]) -> ListLook
    requires { IsBoard board.now }
    ensures value { result ≡ listed (short_of (length out.old / 16) max_names) (table_count (board_in board.now) out.old) }
    ensures out_after { out.new ≡ left_in (short_of (length out.old / 16) max_names) out.old (records (row_cells (board_in board.now)) (board_in board.now).table.order) }
{
    if out.len() / 16 < MAX_NAMES {
        return listed(43, 0);
    }
    let places = out.len() / 16;
    let n = super::found::put_table(board, out);
    listed(0, fitting(n, places))
}

// The panel list; `count` is its length in bytes.
pub fn panel(board: &[u8], out: &mut [u8]) -> ListLook
    requires { IsBoard board.now }
    ensures value { result ≡ listed (short_of (length out.old) (panel_room max_names)) (panel_count (board_in board.now) out.old) }
    ensures out_after { out.new ≡ panel_left (short_of (length out.old) (panel_room max_names)) out.old (panel_bytes (board_in board.now)) }
{
    if out.len() < PANEL {
        return listed(43, 0);
    }
    listed(0, super::found::write_panel(board, out))
}
