// The codes of a form and of a sex.
ghost use Rattle.std.specs.Prelude.{◌≡◌, ◌<◌};
ghost use Rattle.entry.specs.Codes.{form_code, sex_code};

use zone::form::Form;

pub fn form_code(form: Form) -> u8
    ensures { (result ≡ form_code form) × (result < 8) }
{
    form.entered()
}

// `<` 0, F 1, M 2.
pub(crate) fn sex_code(c: u8) -> u8
    ensures { (result ≡ sex_code c) × (result < 4) }
{
    match c {
        b'F' => 1,
        b'M' => 2,
        _ => 0,
    }
}
