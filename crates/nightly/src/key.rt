// Keys in their order.
ghost use Rattle.std.specs.Prelude.{◌≡◌};
ghost use Rattle.nightly.specs.Key.{is_below};

// Compared as unsigned octets from the first; what ends before is below what goes on. By hand, since the library orders no slices
// of octets.
pub(crate) fn is_below(a: &[u8], b: &[u8]) -> bool
    ensures { result ≡ is_below a.now b.now }
{
    let mut i = 0;
    while i < b.len() {
        if a.len() <= i {
            return true;
        }
        if a[i] == b[i] {
            i += 1;
        } else {
            return a[i] < b[i];
        }
    }
    false
}
