// How many tags are in each tier.
ghost use Rattle.std.specs.Prelude.{◌≡◌};
ghost use Rattle.board.specs.Layout.{IsBoard};
ghost use Rattle.board.specs.Board.{board_in};
ghost use Rattle.shown.specs.Looks.{counts_of, no_counts};

use super::found::tier_count;

#[repr(C)]
#[derive(Clone, Copy)]
pub struct CountsLook {
    pub code: u64,
    pub tier1: u64,
    pub tier2: u64,
    pub tier3: u64,
}

pub fn counts_of(board: &[u8]) -> CountsLook
    requires { IsBoard board.now }
    ensures { result ≡ counts_of (board_in board.now) }
{
    CountsLook {
        code: 0,
        tier1: tier_count(board, 1) as u64,
        tier2: tier_count(board, 2) as u64,
        tier3: tier_count(board, 3) as u64,
    }
}

pub fn no_counts(code: u64) -> CountsLook
    ensures { result ≡ no_counts code }
{
    CountsLook {
        code,
        tier1: 0,
        tier2: 0,
        tier3: 0,
    }
}
