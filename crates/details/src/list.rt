// The list of tags: each one that may be named, and none twice.
ghost use Rattle.std.specs.Prelude.{◌≡◌, ◌+◌, ◌*◌, get_or};
ghost use Rattle.details.specs.Details.{is_list};

use crate::element::is_named;

// The tag that two octets are, or the last one where it is left over.
pub(crate) fn tag_of(pair: &[u8]) -> u16
    ensures { result ≡ get_or pair.now 0 0 * 256 + get_or pair.now 1 0 }
{
    lent::octet(pair, 0) as u16 * 256 + lent::octet(pair, 1) as u16
}

// What was named is marked by its second octet: the first is 5F.
pub(crate) fn is_list(tags: &[u8]) -> bool
    ensures { result ≡ is_list tags.now }
{
    let mut seen = [0u8; 256];
    for pair in tags.chunks(2) {
        if !is_named(tag_of(pair)) {
            return false;
        }
        let low = lent::octet(pair, 1) as usize;
        if seen[low] != 0 {
            return false;
        }
        seen[low] = 1;
    }
    true
}
