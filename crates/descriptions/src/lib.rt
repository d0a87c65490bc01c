// Rule 8: the descriptions that tags want, asked for in one call.
#![tactic(auto)]

ghost use Rattle.std.specs.Prelude.{◌≡◌, map, get_or};
ghost use Rattle.table.specs.Tag.{fresh_tag};
ghost use Rattle.table.specs.Table.{table_in};
ghost use Rattle.board.specs.Layout.{IsBoard};
ghost use Rattle.board.specs.Board.{Holds, board_in, with_records, with_asked};
ghost use Rattle.descriptions.specs.Descriptions.{is_unknown, is_asked, asked_tags, unwanted, found_in, learnt, learnt_none, describing};

use board::parts::table_of;
use board::starts::{order_start, table_start, tags_in};
use board::tag::put_description;
use board::tag_lists::{asked_at, asked_count, clear_asked, push_asked};
use fields::{description_of, put_wants, settings_of, wants_of};
use memory::cells::cell;
use table::tag::Description;

fn is_unknown(d: Description) -> bool
    ensures { result ≡ is_unknown d }
{
    matches!(d, Description::Unknown)
}

// A description that the host has set wins, so there is no need to ask.
fn is_asked(t: &[u8], k: usize) -> bool
    ensures { result ≡ is_asked (get_or (table_in t.now) k fresh_tag) }
{
    wants_of(t, k) && !settings_of(t, k).described && is_unknown(description_of(t, k))
}

// The descriptions that are wanted are asked for, by tag number.
fn ask_wanted(b: &mut [u8])
    requires { IsBoard b.old }
    ensures { Holds b.new (with_asked (board_in b.old) (asked_tags (board_in b.old).table.tags)) }
{
    clear_asked(b);
    let n = tags_in(b);
    for k in 0..n {
        if is_asked(table_of(b), k) {
            push_asked(b, k as u16);
        }
    }
}

// No tag wants a description any more: the wants were looked at.
fn use_up_in(t: &mut [u8])
    ensures { table_in t.new ≡ map unwanted (table_in t.old) }
{
    for k in 0..t.len() / 256 {
        if wants_of(t, k) {
            put_wants(t, k, false);
        }
    }
}

fn use_up(b: &mut [u8])
    requires { IsBoard b.old }
    ensures { Holds b.new (with_records (board_in b.old) (map unwanted (board_in b.old).table.tags)) }
{
    let start = table_start(b);
    let end = order_start(b);
    use_up_in(&mut b[start..end]);
}

// The descriptions that are wanted are asked for, and the wants are used up.
pub fn ask_descriptions(b: &mut [u8])
    requires { IsBoard b.old }
    ensures { Holds b.new (describing (board_in b.old)) }
{
    ask_wanted(b);
    use_up(b);
}

// Description i of an answer, in a cell of its own: 0 for none, and otherwise the number and 1.
fn found_at(found: &[u8], i: usize) -> Description
    ensures { result ≡ found_in found.now i }
{
    let n = cell(found, i);
    if n == 0 {
        return Description::Nothing;
    }
    Description::Is(((n - 1) % 0x1_0000_0000) as u32)
}

// The descriptions of the first tags asked for, as many as were found.
pub fn learn(b: &mut [u8], found: &[u8])
    requires { IsBoard b.old }
    ensures { Holds b.new (with_records (board_in b.old) (learnt found.now (board_in b.old).asked (board_in b.old).table.tags)) }
{
    let most = found.len() / 8;
    let listed = asked_count(b);
    let n = if listed < most { listed } else { most };
    for i in 0..n {
        put_description(b, asked_at(b, i), found_at(found, i));
    }
}

// The answer failed: the tags asked for are known to have none, so they are not asked for again. One function for this
// and `learn` would take what is found as a closure, with a clause on its calls, to share a loop of one line.
pub fn learn_none(b: &mut [u8])
    requires { IsBoard b.old }
    ensures { Holds b.new (with_records (board_in b.old) (learnt_none (board_in b.old).asked (board_in b.old).table.tags)) }
{
    for i in 0..asked_count(b) {
        put_description(b, asked_at(b, i), Description::Nothing);
    }
}
