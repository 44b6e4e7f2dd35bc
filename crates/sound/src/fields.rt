// The rules of the text, asked of a record's fields.
ghost use Rattle.std.specs.Prelude.{◌≡◌};
ghost use Rattle.sound.specs.Sound.{keeps_rules, is_held, is_solid, is_number, is_numbered, is_named, is_owned};

use field::code::is_code;
use field::date::{is_birth, is_expiry};
use field::letters::{is_name, is_sex, is_state};
use zone::alphabet::{FILLER, Test, all_characters, all_fillers, every};
use zone::form::Form;
use zone::record::{Record, trimmed_length};

// n characters, from so many to so many, and fillers past them.
fn is_held(least: usize, most: usize, s: &[u8], n: usize) -> bool
    ensures { result ≡ is_held least most s.now n }
{
    (least <= n) & ((n <= most) & (trimmed_length(s) == n))
}

struct Solids;

impl Test for Solids {
    ghost test = { is_solid };

    #[tactic(auto, unfolding(crate::specs::Sound::is_solid, zone::specs::Alphabet::is_filler))]
    fn passes(c: u8) -> bool {
        c != FILLER
    }
}

// No filler at its front, and none from the tenth character on.
fn is_number(s: &[u8], n: usize) -> bool
    ensures { result ≡ is_number s.now n }
{
    let further = lent::part(lent::part(s, 0, n), Form::NINE, s.len());
    all_characters(s) & ((lent::octet(s, 0) != FILLER) & every::<Solids>(further))
}

pub fn is_numbered(r: Record) -> bool
    ensures { result ≡ is_numbered r }
{
    let form = r.form;
    let number = r.number;
    let n = r.number_len;
    is_held(1, form.longest_number(), &number, n) & is_number(&number, n)
}

pub fn is_named(r: Record) -> bool
    ensures { result ≡ is_named r }
{
    let form = r.form;
    let name = r.name;
    is_held(1, form.name_width(), &name, r.name_len) & is_name(&name)
}

// What the form and the number leave room for. Most records have none, for which one look at every place is enough.
pub fn is_owned(r: Record) -> bool
    ensures { result ≡ is_owned r }
{
    let form = r.form;
    let own = r.own;
    if r.own_len == 0 {
        all_fillers(&own)
    } else {
        is_held(0, form.own_place(r.number_len), &own, r.own_len) & all_characters(&own)
    }
}

// Code, state, nationality, birth, sex and expiry.
pub fn keeps_rules(r: Record) -> bool
    ensures { result ≡ keeps_rules r }
{
    let form = r.form;
    let code = r.code;
    let state = r.state;
    let nationality = r.nationality;
    let birth = r.birth;
    let expiry = r.expiry;
    is_code(form, &code)
        & (is_state(&state)
            & (is_state(&nationality) & (is_birth(&birth) & (is_sex(r.sex) & is_expiry(&expiry)))))
}
