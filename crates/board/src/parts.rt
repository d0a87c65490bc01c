// Parts handed out to read.
ghost use Rattle.std.specs.Prelude.{◌≡◌};
ghost use Rattle.board.specs.Layout.{IsBoard, parts_in, back, recorded, configured, queue, groups, table, order, graces, asked, keys, words};

use super::starts::{
    asked_start, configured_start, graces_start, groups_start, keys_start, order_start,
    queue_start, recorded_start, table_start, words_start,
};

pub fn back_of(b: &[u8]) -> &[u8]
    requires { IsBoard b.now }
    ensures { result.now ≡ parts_in b.now back }
{
    &b[0..recorded_start(b)]
}

pub fn recorded_of(b: &[u8]) -> &[u8]
    requires { IsBoard b.now }
    ensures { result.now ≡ parts_in b.now recorded }
{
    &b[recorded_start(b)..configured_start(b)]
}

pub fn configured_of(b: &[u8]) -> &[u8]
    requires { IsBoard b.now }
    ensures { result.now ≡ parts_in b.now configured }
{
    &b[configured_start(b)..queue_start(b)]
}

pub fn queue_of(b: &[u8]) -> &[u8]
    requires { IsBoard b.now }
    ensures { result.now ≡ parts_in b.now queue }
{
    &b[queue_start(b)..groups_start(b)]
}

pub fn groups_of(b: &[u8]) -> &[u8]
    requires { IsBoard b.now }
    ensures { result.now ≡ parts_in b.now groups }
{
    &b[groups_start(b)..table_start(b)]
}

pub fn table_of(b: &[u8]) -> &[u8]
    requires { IsBoard b.now }
    ensures { result.now ≡ parts_in b.now table }
{
    &b[table_start(b)..order_start(b)]
}

pub fn order_of(b: &[u8]) -> &[u8]
    requires { IsBoard b.now }
    ensures { result.now ≡ parts_in b.now order }
{
    &b[order_start(b)..graces_start(b)]
}

pub fn graces_of(b: &[u8]) -> &[u8]
    requires { IsBoard b.now }
    ensures { result.now ≡ parts_in b.now graces }
{
    &b[graces_start(b)..asked_start(b)]
}

pub fn asked_of(b: &[u8]) -> &[u8]
    requires { IsBoard b.now }
    ensures { result.now ≡ parts_in b.now asked }
{
    &b[asked_start(b)..keys_start(b)]
}

pub fn keys_of(b: &[u8]) -> &[u8]
    requires { IsBoard b.now }
    ensures { result.now ≡ parts_in b.now keys }
{
    &b[keys_start(b)..words_start(b)]
}

pub fn words_of(b: &[u8]) -> &[u8]
    requires { IsBoard b.now }
    ensures { result.now ≡ parts_in b.now words }
{
    &b[words_start(b)..]
}
