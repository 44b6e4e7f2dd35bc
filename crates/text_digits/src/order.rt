// Two checks in the order in which a form has them.
ghost use Rattle.std.specs.Prelude.{◌≡◌};
ghost use Rattle.refusal.specs.Outcome.{outcome_of};
ghost use Rattle.text_digits.specs.Inner.Checks.{in_turn};

use refusal::Refusal;

pub fn in_turn(ahead: bool, a: Result<(), Refusal>, b: Result<(), Refusal>) -> Result<(), Refusal>
    ensures { outcome_of result ≡ in_turn ahead (outcome_of a) (outcome_of b) }
{
    if ahead { a.and(b) } else { b.and(a) }
}
