// The three forms of document 01, "The text", and the two visas of request 2026-05: what tells which, and where everything stands
// in each. A form is a row of constants here; what reads and writes a text goes by these and by nothing else of the form.
ghost use Rattle.std.specs.Prelude.{◌≡◌, not, ◌&&◌, ◌||◌, eqb};
ghost use Rattle.zone.specs.Form.{row, forms, first_form, form_of, form_by, is_alone};
ghost use Rattle.zone.specs.Form.{is_visa, is_visa_code, width, longest, total, before_own, own_place};
ghost use Rattle.zone.specs.Inner.Places.{places_of};
ghost use Rattle.zone.specs.Part.{name, optional, personal, composite};

use crate::alphabet::{FILLER, is_letter};
use std::fmt;

#[derive(Clone, Copy, Debug, PartialEq, Eq)]
pub enum Form {
    Td1,
    Td2,
    Td3,
    MrvA,
    MrvB,
}

// What a document is, which its code tells.
#[derive(Clone, Copy, Debug, PartialEq, Eq)]
pub enum Kind {
    Card,
    Passport,
    Visa,
}

// Where a text stands, on which it depends what forms it may have.
#[derive(Clone, Copy, Debug, PartialEq, Eq)]
pub enum Source {
    Alone,
    GroupOne,
    Seal,
}

// The row of constants of a form: where each part of a text begins, how wide it is where forms differ, and what else they differ
// in. A part that the form does not have begins at the text's end and has no width.
#[derive(Clone, Copy)]
pub struct Places {
    pub kind: Kind,
    // The form's number in an entry.
    pub entered: u8,
    pub text_length: usize,
    pub code: usize,
    pub state: usize,
    pub number: usize,
    pub number_longest: usize,
    pub number_check: usize,
    pub optional: usize,
    pub optional_width: usize,
    // How many characters that the composite covers stand before it.
    pub optional_before: usize,
    pub optional2: usize,
    pub optional2_width: usize,
    pub nationality: usize,
    pub birth: usize,
    pub birth_check: usize,
    pub sex: usize,
    pub expiry: usize,
    pub expiry_check: usize,
    pub personal: usize,
    pub personal_width: usize,
    pub personal_check: usize,
    pub personal_check_width: usize,
    pub composite: usize,
    pub composite_width: usize,
    pub name: usize,
    pub name_width: usize,
    // Where the issuer's own data stand, which is the place of another part.
    pub own: usize,
    pub own_width: usize,
}

impl Form {
    // How many characters a text has.
    pub const TD1_TEXT: usize = 90;

    pub const TD2_TEXT: usize = 72;

    pub const TD3_TEXT: usize = 88;

    pub const MRV_A_TEXT: usize = 88;

    pub const MRV_B_TEXT: usize = 72;

    // The widths that are the same in every form; a nationality has that of a state.
    pub const CODE: usize = 2;

    pub const STATE: usize = 3;

    pub const DATE: usize = 6;

    // The number's own field, and the most characters of a long number behind it.
    pub const NINE: usize = 9;

    pub const FURTHER: usize = 13;

    // How many characters each form allows.
    pub const TD1_NUMBER: usize = 22;

    pub const TD2_NUMBER: usize = 14;

    pub const TD3_NUMBER: usize = 9;

    pub const MRV_A_NUMBER: usize = 9;

    pub const MRV_B_NUMBER: usize = 9;

    pub const TD1_NAME: usize = 30;

    pub const TD2_NAME: usize = 31;

    pub const TD3_NAME: usize = 39;

    pub const MRV_A_NAME: usize = 39;

    pub const MRV_B_NAME: usize = 31;

    // The room that a record has: the most of any form.
    pub const NUMBER: usize = 22;

    pub const NAME: usize = 39;

    pub const OWN: usize = 16;

    // Which form a text is, of those that may stand there: its length tells, and its code where a visa is as long.
    pub fn of_text(source: Source, text: &[u8]) -> Option<Form>
        ensures { result ≡ form_of source text.now }
    {
        let visa = is_alone(source) & selects_visa(lent::octet(text, 0), lent::octet(text, 1));
        Form::of_length(text.len(), visa)
    }

    fn of_length(n: usize, visa: bool) -> Option<Form>
        ensures { result ≡ first_form (λ f. eqb n (total f) && (not (is_visa (row f).kind) || visa)) forms }
    {
        match n {
            Form::TD1_TEXT => Some(Form::Td1),
            Form::TD2_TEXT => Some(if visa { Form::MrvB } else { Form::Td2 }),
            Form::TD3_TEXT => Some(if visa { Form::MrvA } else { Form::Td3 }),
            _ => None,
        }
    }

    // Which form a number in an entry is.
    pub fn entered_as(n: u32) -> Option<Form>
        ensures { result ≡ form_by n }
    {
        match n {
            0 => Some(Form::Td1),
            1 => Some(Form::Td2),
            2 => Some(Form::Td3),
            3 => Some(Form::MrvA),
            4 => Some(Form::MrvB),
            _ => None,
        }
    }

    pub fn entered(self) -> u8
        ensures { result ≡ (row self).entered }
    {
        self.places().entered
    }

    pub fn kind(self) -> Kind
        ensures { result ≡ (row self).kind }
    {
        self.places().kind
    }

    pub fn text_length(self) -> usize
        ensures { result ≡ total self }
    {
        self.places().text_length
    }

    pub fn longest_number(self) -> usize
        ensures { result ≡ longest self }
    {
        self.places().number_longest
    }

    pub fn name_width(self) -> usize
        ensures { result ≡ width self name }
    {
        self.places().name_width
    }

    // The field that a long number runs into, 0 in forms without one.
    pub fn optional_width(self) -> usize
        ensures { result ≡ width self optional }
    {
        self.places().optional_width
    }

    // 0 in forms without a personal number.
    pub fn personal_width(self) -> usize
        ensures { result ≡ width self personal }
    {
        self.places().personal_width
    }

    // 0 in forms without a composite digit.
    pub fn composite_width(self) -> usize
        ensures { result ≡ width self composite }
    {
        self.places().composite_width
    }

    // How many characters of a number of n, with its check digit and a filler, stand before the issuer's own data in their part.
    pub fn before_own(self, n: usize) -> usize
        ensures { result ≡ before_own self n }
    {
        let at = self.places();
        if (at.own == at.optional) & (Form::NINE < n) {
            n - Form::NINE + 2
        } else {
            0
        }
    }

    // The place that is left for them.
    pub fn own_place(self, n: usize) -> usize
        ensures { result ≡ own_place self n }
    {
        let wide = self.places().own_width;
        let before = self.before_own(n);
        if before <= wide { wide - before } else { 0 }
    }

    pub fn places(self) -> Places
        ensures { result ≡ places_of self }
    {
        match self {
            Form::Td1 => td1_places(),
            Form::Td2 => td2_places(),
            Form::Td3 => td3_places(),
            Form::MrvA => mrv_a_places(),
            Form::MrvB => mrv_b_places(),
        }
    }
}

impl fmt::Display for Form {
    fn fmt<W: fmt::Write>(&self, f: &mut fmt::Formatter<W>) -> fmt::Result {
        f.write_str(match self {
            Form::Td1 => "TD1",
            Form::Td2 => "TD2",
            Form::Td3 => "TD3",
            Form::MrvA => "MRV-A",
            Form::MrvB => "MRV-B",
        })
    }
}

// The first two characters of a visa.
pub fn selects_visa(a: u8, b: u8) -> bool
    ensures { result ≡ is_visa_code a b }
{
    (a == b'V') & (is_letter(b) | (b == FILLER))
}

fn is_alone(source: Source) -> bool
    ensures { result ≡ is_alone source }
{
    source == Source::Alone
}

// The rows.
fn td1_places() -> Places
    ensures { result ≡ places_of Form.Td1 }
{
    Places {
        kind: Kind::Card,
        entered: 0,
        text_length: Form::TD1_TEXT,
        code: 0,
        state: 2,
        number: 5,
        number_longest: Form::TD1_NUMBER,
        number_check: 14,
        optional: 15,
        optional_width: 15,
        optional_before: 10,
        birth: 30,
        birth_check: 36,
        sex: 37,
        expiry: 38,
        expiry_check: 44,
        nationality: 45,
        optional2: 48,
        optional2_width: 11,
        composite: 59,
        composite_width: 1,
        name: 60,
        name_width: Form::TD1_NAME,
        personal: Form::TD1_TEXT,
        personal_width: 0,
        personal_check: Form::TD1_TEXT,
        personal_check_width: 0,
        own: 48,
        own_width: 11,
    }
}

fn td2_places() -> Places
    ensures { result ≡ places_of Form.Td2 }
{
    Places {
        kind: Kind::Card,
        entered: 1,
        text_length: Form::TD2_TEXT,
        code: 0,
        state: 2,
        name: 5,
        name_width: Form::TD2_NAME,
        number: 36,
        number_longest: Form::TD2_NUMBER,
        number_check: 45,
        nationality: 46,
        birth: 49,
        birth_check: 55,
        sex: 56,
        expiry: 57,
        expiry_check: 63,
        optional: 64,
        optional_width: 7,
        optional_before: 24,
        composite: 71,
        composite_width: 1,
        optional2: Form::TD2_TEXT,
        optional2_width: 0,
        personal: Form::TD2_TEXT,
        personal_width: 0,
        personal_check: Form::TD2_TEXT,
        personal_check_width: 0,
        own: 64,
        own_width: 7,
    }
}

fn td3_places() -> Places
    ensures { result ≡ places_of Form.Td3 }
{
    Places {
        kind: Kind::Passport,
        entered: 2,
        text_length: Form::TD3_TEXT,
        code: 0,
        state: 2,
        name: 5,
        name_width: Form::TD3_NAME,
        number: 44,
        number_longest: Form::TD3_NUMBER,
        number_check: 53,
        nationality: 54,
        birth: 57,
        birth_check: 63,
        sex: 64,
        expiry: 65,
        expiry_check: 71,
        personal: 72,
        personal_width: 14,
        personal_check: 86,
        personal_check_width: 1,
        composite: 87,
        composite_width: 1,
        optional: Form::TD3_TEXT,
        optional_width: 0,
        optional_before: 39,
        optional2: Form::TD3_TEXT,
        optional2_width: 0,
        own: 72,
        own_width: 14,
    }
}

fn mrv_a_places() -> Places
    ensures { result ≡ places_of Form.MrvA }
{
    Places {
        kind: Kind::Visa,
        entered: 3,
        text_length: Form::MRV_A_TEXT,
        code: 0,
        state: 2,
        name: 5,
        name_width: Form::MRV_A_NAME,
        number: 44,
        number_longest: Form::MRV_A_NUMBER,
        number_check: 53,
        nationality: 54,
        birth: 57,
        birth_check: 63,
        sex: 64,
        expiry: 65,
        expiry_check: 71,
        optional: 72,
        optional_width: 16,
        optional_before: 0,
        composite: Form::MRV_A_TEXT,
        composite_width: 0,
        optional2: Form::MRV_A_TEXT,
        optional2_width: 0,
        personal: Form::MRV_A_TEXT,
        personal_width: 0,
        personal_check: Form::MRV_A_TEXT,
        personal_check_width: 0,
        own: 72,
        own_width: 16,
    }
}

fn mrv_b_places() -> Places
    ensures { result ≡ places_of Form.MrvB }
{
    Places {
        kind: Kind::Visa,
        entered: 4,
        text_length: Form::MRV_B_TEXT,
        code: 0,
        state: 2,
        name: 5,
        name_width: Form::MRV_B_NAME,
        number: 36,
        number_longest: Form::MRV_B_NUMBER,
        number_check: 45,
        nationality: 46,
        birth: 49,
        birth_check: 55,
        sex: 56,
        expiry: 57,
        expiry_check: 63,
        optional: 64,
        optional_width: 8,
        optional_before: 0,
        composite: Form::MRV_B_TEXT,
        composite_width: 0,
        optional2: Form::MRV_B_TEXT,
        optional2_width: 0,
        personal: Form::MRV_B_TEXT,
        personal_width: 0,
        personal_check: Form::MRV_B_TEXT,
        personal_check_width: 0,
        own: 64,
        own_width: 8,
    }
}
