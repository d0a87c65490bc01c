// Rule 1 on names and directories. An answer that is an enum is its number.
ghost use Rattle.std.specs.Prelude.{◌≡◌};
ghost use Rattle.names.specs.Order.{compared, compared_low};
ghost use Rattle.names.specs.Bits.{split_bit};
ghost use Rattle.names.specs.Directory.{max_names, max_name_length, names_of, directory_check};
ghost use Rattle.names.specs.Keys.{key_of, word_of};
ghost use Rattle.leaves.specs.Directories.{order_number, word_length, found_tag};

use names::bits::split_bit;
use names::directory::Directory;
use names::order::{compare, compare_lower};
use refusals::code;
use std::cmp::Ordering;

// 0, or the number of the check that refuses.
#[tactic(auto, using(crate::proofs::Laws::check_small))]
#[unsafe(no_mangle)]
pub extern "C" fn leaf_check_directory<'a>(names: &'a [u8], ends: &'a [u32]) -> u8
    ensures { result ≡ directory_check max_names max_name_length names.now ends.now }
{
    code(Directory { names, ends }.check()) as u8
}

fn order_number(o: Ordering) -> u8
    ensures { result ≡ order_number o }
{
    match o {
        Ordering::Less => 0,
        Ordering::Equal => 1,
        Ordering::Greater => 2,
    }
}

#[unsafe(no_mangle)]
pub extern "C" fn leaf_compare(a: &[u8], b: &[u8]) -> u8
    ensures { result ≡ order_number (compared a.now b.now) }
{
    order_number(compare(a, b))
}

#[unsafe(no_mangle)]
pub extern "C" fn leaf_compare_lower(a: &[u8], b: &[u8]) -> u8
    ensures { result ≡ order_number (compared_low a.now b.now) }
{
    order_number(compare_lower(a, b))
}

// How long a bit's word is, 0 for what is no bit.
#[unsafe(no_mangle)]
pub extern "C" fn leaf_split_bit(name: &[u8]) -> usize
    ensures { result ≡ word_length (split_bit name.now) }
{
    split_bit(name).unwrap_or(0)
}

#[unsafe(no_mangle)]
pub extern "C" fn leaf_sort_key<'a>(names: &'a [u8], ends: &'a [u32], tag: usize) -> usize
    ensures { result ≡ key_of (names_of names.now ends.now) tag }
{
    Directory { names, ends }.sort_key(tag)
}

// The tag of a bit's word, the largest number where there is none.
#[unsafe(no_mangle)]
pub extern "C" fn leaf_word_of<'a>(names: &'a [u8], ends: &'a [u32], tag: usize) -> usize
    ensures { result ≡ found_tag (word_of (names_of names.now ends.now) tag) }
{
    Directory { names, ends }.word_of(tag).unwrap_or(usize::MAX)
}
