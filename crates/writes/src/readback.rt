// What is read after a write that went through.
ghost use Rattle.std.specs.Prelude.{◌≡◌};
ghost use Rattle.board.specs.Layout.{IsBoard};
ghost use Rattle.board.specs.Board.{Holds, board_in, asking};
ghost use Rattle.writes.specs.ReadBack.{read_back_tags, read_back_value, read_back_first, kept_back};

use board::tag::word_of;
use board::tag_lists::{clear_asked, push_asked, shorten_asked};
use board::waiting::put_back;
use results::result::result_at;
use values::entry::TagResult;
use values::value::Value;

// The tag written, and for a bit its word where the directory has it, are asked for. `word_of` gives 0 where the tag is
// no bit, 1 for a bit without its word, and otherwise the word's tag and 2.
pub fn ask_read_back(b: &mut [u8], k: u16)
    requires { IsBoard b.old }
    ensures { Holds b.new (asking (board_in b.old) (read_back_tags (board_in b.old).table.words k)) }
{
    clear_asked(b);
    push_asked(b, k);
    let code = word_of(b, k as usize);
    if 1 < code {
        push_asked(b, (code - 2) as u16);
    }
}

// The results of a read-back are kept until its outcome has been taken, and the tags that they cover.
pub fn keep_back(b: &mut [u8], results: &[u8])
    requires { IsBoard b.old }
    ensures { Holds b.new (kept_back (board_in b.old) results.now) }
{
    shorten_asked(b, results.len() / 32);
    put_back(b, results);
}

fn good_value(r: TagResult) -> Value
    ensures { result ≡ read_back_value r }
{
    match r {
        Ok(value) => value,
        Err(_) => Value::Null,
    }
}

// The value that a write is told to have left: that of the first result.
pub fn read_back_value(results: &[u8]) -> Value
    ensures { result ≡ read_back_first results.now }
{
    good_value(result_at(results, 0))
}
