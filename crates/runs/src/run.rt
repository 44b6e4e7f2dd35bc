// A run of entries, read one by one.
ghost use Rattle.std.specs.Prelude.{◌≡◌, true, ◌&&◌, ◌+◌, ◌^◌, ◌<◌, length, Some};
ghost use Rattle.entry.specs.Entry as E;
ghost use Rattle.runs.specs.Inner.Units as U;
ghost use Rattle.runs.specs.Run as R;

use crate::record::{is_whole, name_length, own_length, record_in, size};
use entry::places;
use entry::write::is_house;
use refusal::{Cause, Refusal};
use units::unpack::bits;
use zone::form::Form;
use zone::record::Record;

// An entry that stands in a run, and where the next one does.
#[derive(Clone, Copy)]
pub struct Standing {
    pub next: usize,
    pub house: u32,
    pub kept: Record,
}

// 18 at the start of what is no entry.
#[tactic(auto, unfolding(crate::specs::Run::no_entry))]
fn no_entry(at: usize) -> Result<Option<Standing>, Refusal>
    ensures { R.standing_of result ≡ R.no_entry at }
{
    Err(Refusal::at(Cause::Entry, at))
}

// What has a house and is whole is an entry where the record is sound.
fn sound_entry(
    form: Form,
    s: &[u8],
    at: usize,
    house: u32,
    m: usize,
    n: usize,
) -> Result<Option<Standing>, Refusal>
    requires told { U.Told s.now m n × (at + length s.now < 2 ^ 63) }
    requires house_value { (house ≡ R.house_in s.now) × (E.is_house house && R.is_whole s.now ≡ true) }
    ensures { R.standing_of result ≡ R.entry_by (Some form) s.now at }
{
    let kept = record_in(form, s, m, n);
    if sound::is_sound(kept) {
        Ok(Some(Standing {
            next: at + size(m + n),
            house,
            kept,
        }))
    } else {
        no_entry(at)
    }
}

// The tests that cost little go before the record.
fn entry_as(form: Form, s: &[u8], at: usize) -> Result<Option<Standing>, Refusal>
    requires { at + length s.now < 2 ^ 63 }
    ensures { R.standing_of result ≡ R.entry_by (Some form) s.now at }
{
    let house = bits(s, places::HOUSE, places::HOUSE_BITS);
    let m = own_length(s);
    let n = name_length(s, m);
    if is_house(house) & is_whole(s, m, n) {
        sound_entry(form, s, at, house, m, n)
    } else {
        no_entry(at)
    }
}

fn entry_at(s: &[u8], at: usize) -> Result<Option<Standing>, Refusal>
    requires { at + length s.now < 2 ^ 63 }
    ensures { R.standing_of result ≡ R.entry_by (R.form_in s.now) s.now at }
{
    let told = Form::entered_as(bits(s, places::FORM, places::FORM_BITS));
    match told {
        Some(form) => entry_as(form, s, at),
        None => no_entry(at),
    }
}

// What stands at an offset of a run: an entry, none at the run's end, or a refusal.
pub fn next(run: &[u8], at: usize) -> Result<Option<Standing>, Refusal>
    ensures { R.standing_of result ≡ R.read_entry run.now at }
{
    if at == run.len() {
        return Ok(None);
    }
    if run.len() < at {
        return no_entry(at);
    }
    entry_at(&run[at..], at)
}
