// The store's nightly list: a run of entries whose keys rise, and in it the stretch of each house.
#![tactic(auto)]

ghost use Rattle.std.specs.Prelude.{◌≡◌};
ghost use Rattle.tlv.specs.Cut as C;
ghost use Rattle.tlv.specs.Read.{read_of};
ghost use Rattle.nightly.specs.List.{look_over, house_stretch};

mod key;
mod place;
mod walk;

use refusal::Refusal;
use tlv::Stretch;
use tlv::cut::cut;
use walk::walk;

// How many entries a list has, or why it is refused. Looks for no house: 0 is none.
pub fn look_over(list: &[u8]) -> Result<usize, Refusal>
    ensures { read_of result ≡ look_over list.now }
{
    let seen = walk(list, 0)?;
    Ok(seen.entries)
}

// Where the entries of a house stand: empty where it has none or the list is refused.
pub fn house_stretch(list: &[u8], house: u32) -> Stretch
    ensures { result ≡ house_stretch list.now house }
{
    match walk(list, house) {
        Ok(seen) => seen.own,
        Err(_) => Stretch { from: 0, to: 0 },
    }
}

// These entries, as a part of the list.
pub fn house_entries(list: &[u8], house: u32) -> &[u8]
    ensures { result.now ≡ C.cut list.now (house_stretch list.now house) }
{
    let stretch = house_stretch(list, house);
    cut(list, stretch)
}
