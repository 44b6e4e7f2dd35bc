// C40 has no filler: a space stands for it.
ghost use Rattle.std.specs.Prelude.{cond, ◌≡◌, eqb};
ghost use Rattle.zone.specs.Alphabet.{filler};
ghost use Rattle.c40.specs.Values.{space};
ghost use Rattle.seal_fields.specs.Spaces.{filled};

use zone::alphabet::FILLER;

fn filler_for_space(c: u8) -> u8
    ensures { result ≡ cond (eqb c space) filler c }
{
    if c == b' ' { FILLER } else { c }
}

// Every space of a range becomes a filler. Every octet is stored, so that the compiler takes many at a time.
pub fn to_fillers(text: &mut [u8])
    ensures { text.new ≡ filled text.old }
{
    for c in text.iter_mut() {
        *c = filler_for_space(*c);
    }
}
