// The sound record: whether a record is one that a text could have given. Every writer asks this first.
#![tactic(auto)]

ghost use Rattle.std.specs.Prelude.{◌≡◌};
ghost use Rattle.sound.specs.Sound.{is_sound};

use zone::record::Record;

mod fields;

// The room that each field has is given by its type, and needs no test.
pub fn is_sound(r: Record) -> bool
    ensures { result ≡ is_sound r }
{
    fields::keeps_rules(r) & (fields::is_numbered(r) & (fields::is_named(r) & fields::is_owned(r)))
}
