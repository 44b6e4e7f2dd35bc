// The header's fields, judged from the left.
ghost use Rattle.std.specs.Prelude.{◌≡◌, ◌+◌, ◌≤◌, length};
ghost use Rattle.refusal.specs.Outcome.{outcome_of};
ghost use Rattle.seal_header.specs.Reference.{before};
ghost use Rattle.seal_header.specs.Header as Head;

use crate::reference;
use field::letters::is_state;
use refusal::{Cause, Refusal};
use seal_fields::day::{Day, day_at, is_day};
use seal_fields::spaces::to_fillers;
use zone::alphabet::FILLER;
use zone::form::Form;
use zone::taken::padded;

// What a header says. Places past the reference's length are fillers.
#[derive(Clone, Copy)]
pub struct Header {
    pub version: u8,
    pub country: [u8; Form::STATE],
    pub signer: [u8; 4],
    pub reference: [u8; 255],
    pub reference_len: u8,
    pub issued: Day,
    pub signed_on: Day,
    pub definition: u8,
    pub category: u8,
}

// What was decided of a header, what it says, and where the features begin. It says nothing of worth where it is refused, but it
// says it all the same: so a verdict stands beside it, and no `Result` around it.
#[derive(Clone, Copy)]
pub struct Headed {
    pub verdict: Result<(), Refusal>,
    pub header: Header,
    pub end: usize,
}

impl Header {
    // The header that every refusal gives.
    pub fn blank() -> Header
        ensures { result ≡ Head.blank_header }
    {
        Header {
            version: 0,
            country: [FILLER; Form::STATE],
            signer: [FILLER; 4],
            reference: [FILLER; 255],
            reference_len: 0,
            issued: Day {
                year: 0,
                month: 0,
                day: 0,
            },
            signed_on: Day {
                year: 0,
                month: 0,
                day: 0,
            },
            definition: 0,
            category: 0,
        }
    }
}

fn is_version(v: u8) -> bool
    ensures { result ≡ Head.is_version v }
{
    (v == 0x02) | (v == 0x03)
}

// C40 of three characters; fillers where it is not.
fn country_in(s: &[u8]) -> [u8; Form::STATE]
    ensures { result ≡ Head.country s.now }
{
    let mut room = [FILLER; Form::STATE];
    if c40::field::field_at(s, 2, &mut room) {
        to_fillers(&mut room);
    }
    room
}

// The fields up to the reference.
fn front_check(s: &[u8], country: [u8; Form::STATE], text: &[u8]) -> Result<(), Refusal>
    ensures { outcome_of result ≡ Head.front_check s.now country text.now }
{
    let first = Refusal::unless(lent::octet(s, 0) == 0xDC, Cause::SealHeader, 0);
    let version = Refusal::unless(is_version(lent::octet(s, 1)), Cause::SealHeader, 1);
    let state = Refusal::unless(is_state(&country), Cause::SealHeader, 2);
    let signer = Refusal::unless(reference::is_reference(text), Cause::SealHeader, 4);
    first.and(version.and(state.and(signer)))
}

// The fields behind it, which stand where its width puts them.
fn back_check(s: &[u8], v: usize, issued: Day, signed: Day) -> Result<(), Refusal>
    requires { v ≤ 174 }
    ensures { outcome_of result ≡ Head.back_check s.now v issued signed }
{
    let first = Refusal::unless(is_day(issued), Cause::SealHeader, 4 + v);
    let second = Refusal::unless(is_day(signed), Cause::SealHeader, 7 + v);
    let definition = lent::octet(s, 10 + v) == 0x5E;
    let category = lent::octet(s, 11 + v) == 0x03;
    let third = Refusal::unless(definition, Cause::SealHeader, 10 + v);
    let fourth = Refusal::unless(category, Cause::SealHeader, 11 + v);
    first.and(second.and(third.and(fourth)))
}

// What is handed out: of the reference the signer, and what stands behind it.
fn header_by(
    s: &[u8],
    country: [u8; Form::STATE],
    text: &[u8],
    v: usize,
    issued: Day,
    signed: Day,
) -> Header
    requires { (v ≤ 174) × (length text.now ≤ before s.now + 255) }
    ensures { result ≡ Head.header_by s.now country text.now v issued signed }
{
    let from = reference::before(s);
    let behind = lent::part(text, from, text.len());
    Header {
        version: lent::octet(s, 1),
        country,
        signer: padded(lent::part(text, 0, 4)),
        reference: padded(behind),
        reference_len: behind.len() as u8,
        issued,
        signed_on: signed,
        definition: lent::octet(s, 10 + v),
        category: lent::octet(s, 11 + v),
    }
}

// A header whose reference has these characters, in so many octets.
fn read_by(s: &[u8], text: &[u8], v: usize) -> Headed
    requires { (v ≤ 174) × (length text.now ≤ before s.now + 255) }
    ensures { Head.HeadsBy s.now text.now v result }
{
    let country = country_in(s);
    let issued = day_at(s, 4 + v);
    let signed = day_at(s, 7 + v);
    let verdict = front_check(s, country, text).and(back_check(s, v, issued, signed));
    Headed {
        verdict,
        header: header_by(s, country, text, v, issued, signed),
        end: 12 + v,
    }
}

// The header, judged from the left: 24 at the first field that is wrong, cut off or not there.
pub fn read(s: &[u8]) -> Headed
    ensures { Head.Heads s.now result }
{
    let count = reference::length(s);
    let mut room = [FILLER; 261];
    let n = reference::read(s, count, &mut room);
    read_by(s, lent::part(&room, 0, n), 2 * ((count + 2) / 3))
}
