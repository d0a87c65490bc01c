// Where the parts of a panel list stand. A place that the list does not have reads 0.
ghost use Rattle.std.specs.Prelude.{◌≡◌, length, get_or};
ghost use Rattle.panel.specs.Panel.{tags_of, tiers_of};

pub fn byte(list: &[u8], p: usize) -> u8
    ensures { result ≡ get_or list.now p 0 }
{
    if p < list.len() { list[p] } else { 0 }
}

pub fn tag_at(list: &[u8], i: usize) -> u8
    ensures { result ≡ get_or (tags_of list.now) i 0 }
{
    if i < byte(list, 0) as usize {
        byte(list, 1 + i)
    } else {
        0
    }
}

pub fn tier_at(list: &[u8], i: usize) -> u8
    ensures { result ≡ get_or (tiers_of list.now) i 0 }
{
    let n = byte(list, 0) as usize;
    if i < n { byte(list, 1 + n + i) } else { 0 }
}

// How many tags have a tier byte: as many as the count byte says, or as far as the list goes.
pub fn entries(list: &[u8]) -> usize
    ensures { result ≡ length (tiers_of list.now) }
{
    let n = byte(list, 0) as usize;
    if list.len() <= 1 + n {
        0
    } else if list.len() - (1 + n) < n {
        list.len() - (1 + n)
    } else {
        n
    }
}
