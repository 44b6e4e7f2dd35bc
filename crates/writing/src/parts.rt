// The parts of a text around its number, in the places of the record's form.
ghost use Rattle.std.specs.Prelude.{◌≡◌, ◌≤◌};
ghost use Rattle.zone.specs.Rooms.{number_room};
ghost use Rattle.writing.specs.Inner.Puts.{put_opening, put_own, put_dates, put_person, put_last};

use crate::fields::{own_digit, put_code, put_date, put_name, put_own_characters, put_state};
use digit::composite::{Sums, digit_by};
use zone::record::Record;

// Code and issuing state.
pub fn put_opening(text: &mut [u8], r: Record)
    ensures { text.new ≡ put_opening r text.old }
{
    let form = r.form;
    let at = form.places();
    let code = r.code;
    let state = r.state;
    put_code(text, at.code, code);
    put_state(text, at.state, state);
}

// The issuer's own data, behind what a long number takes of their field.
pub(crate) fn put_own(text: &mut [u8], r: Record)
    requires { r.number_len ≤ number_room }
    ensures { text.new ≡ put_own r text.old }
{
    let form = r.form;
    let at = form.places();
    let own = r.own;
    let before = form.before_own(r.number_len);
    put_own_characters(text, at.own + before, r.own_len, own);
}

// Birth and expiry, each with its check digit.
pub fn put_dates(text: &mut [u8], r: Record)
    ensures { text.new ≡ put_dates r text.old }
{
    let form = r.form;
    let at = form.places();
    let birth = r.birth;
    let expiry = r.expiry;
    put_date(text, at.birth, at.birth_check, birth);
    put_date(text, at.expiry, at.expiry_check, expiry);
}

// Nationality, sex and name.
pub fn put_person(text: &mut [u8], r: Record)
    ensures { text.new ≡ put_person r text.old }
{
    let form = r.form;
    let at = form.places();
    let nationality = r.nationality;
    let name = r.name;
    put_state(text, at.nationality, nationality);
    lent::put(text, at.sex, r.sex);
    put_name(text, at.name, form.name_width(), name);
}

// The personal check, over the issuer's own data, and the composite digit, which covers all the rest, where the form has them.
pub fn put_last(text: &mut [u8], r: Record)
    ensures { text.new ≡ put_last r text.old }
{
    let form = r.form;
    let at = form.places();
    let own = r.own;
    let personal = own_digit(r.own_len, own);
    lent::put(text, at.personal_check, personal);
    if 0 < form.composite_width() {
        let d = digit_by(Sums::of(form, text));
        lent::put(text, at.composite, d);
    }
}
