// Which version of the libraries this is, in the one number that C is told.
#![tactic(auto)]

ghost use Rattle.std.specs.Prelude.{◌≡◌};
ghost use Rattle.version.specs.Version.{version_number};

const MAJOR: u32 = 0;

const MINOR: u32 = 3;

const PATCH: u32 = 2;

pub fn number() -> u32
    ensures { result ≡ version_number }
{
    10000 * MAJOR + 100 * MINOR + PATCH
}
