// The tags of EF.COM's list: first an unknown one, then a repeated one.
ghost use Rattle.std.specs.Prelude.{◌≡◌, [], ◌+◌, ◌<◌, ◌^◌, length};
ghost use Rattle.refusal.specs.Outcome.{outcome_of};
ghost use Rattle.efcom.specs.EfCom as C;

use refusal::{Cause, Refusal};
use tlv::Stretch;
use tlv::cut::cut;
use tlv::tags::is_group;

// First an unknown tag, at its octet.
fn known(tags: &[u8], from: usize) -> Result<(), Refusal>
    requires { from + length tags.now < 2 ^ 64 }
    ensures { outcome_of result ≡ C.known_from from tags.now }
{
    for (i, &c) in tags.iter().enumerate() {
        if !is_group(c) {
            return Err(Refusal::at(Cause::EfCom, from + i));
        }
    }
    Ok(())
}

// Then a repeated one, at its octet. What was seen is marked by octet, so that a long list is passed over once.
fn once(tags: &[u8], from: usize) -> Result<(), Refusal>
    requires { from + length tags.now < 2 ^ 64 }
    ensures { outcome_of result ≡ C.once_from from [] tags.now }
{
    let mut seen = [0u8; 256];
    for (i, &c) in tags.iter().enumerate() {
        let octet = c as usize;
        if seen[octet] != 0 {
            return Err(Refusal::at(Cause::EfCom, from + i));
        }
        seen[octet] = 1;
    }
    Ok(())
}

// Both. A list that passes them has at most fifteen.
pub(crate) fn tags_check(s: &[u8], v: Stretch) -> Result<(), Refusal>
    ensures { outcome_of result ≡ C.tags_check s.now v }
{
    let tags = cut(s, v);
    known(tags, v.from).and(once(tags, v.from))
}
