// The calls that a C host makes, exported by `lamphudet_c`. A call here decides nothing: it hands the lent ranges on and tells
// the answer in numbers, or a record in its fields. Each also promises that what it was lent for reading is octets, so that what
// is shown of octets is shown of every call.
#![tactic(auto)]

ghost use Rattle.std.specs.Prelude.{◌≡◌};
ghost use Rattle.zone.specs.Octets.{AreOctets};
ghost use Rattle.zone.specs.declared.form.Source.TheVariants.{Alone};
ghost use Rattle.text.specs.Read.{read_text};
ghost use Rattle.chip.specs.Presentation.{read_presentation, group_stretch};
ghost use Rattle.digest.specs.Answer.{digest_answer, digest_out};
ghost use Rattle.runs.specs.Run.{read_entry};
ghost use Rattle.version.specs.Version.{version_number};
ghost use Rattle.border.specs.Answer.{in_c};
ghost use Rattle.as_entry.specs.Written.{written_answer, written_out};
ghost use Rattle.inside.specs.Inside.{look_inside};
ghost use Rattle.nightly.specs.List.{look_over, house_stretch};
ghost use Rattle.border.specs.Calls.{next_in_c, stretch_in_c, count_in_c};
ghost use Rattle.border.specs.Details.{detail_in_c, name_in_c};
ghost use Rattle.details.specs.Details.{read_detail};
ghost use Rattle.full_name.specs.FullName.{full_name};
ghost use Rattle.lamphudet.specs.Calls.{read_answer, read_out};
ghost use Rattle.as_entry.specs.Opened.{opened_in_c};

use as_entry::received::RecordInC;
use border::received::{AnswerInC, DetailInC, NameInC, StretchInC};
use zone::form::Source;

// A text is read, and its record entered under a house.
pub fn lamphudet_read_text(house: u32, text: &[u8], entry: &mut [u8]) -> AnswerInC
    ensures value { result ≡ in_c (read_answer house (read_text Alone text.now) entry.old) }
    ensures after { entry.new ≡ read_out house (read_text Alone text.now) entry.old }
    ensures are_octets { AreOctets text.now }
{
    AnswerInC::from(entry::enter::enter(text::read::read(Source::Alone, text), house, entry))
}

// A presentation is read, and its record entered under a house.
pub fn lamphudet_read_presentation(house: u32, presentation: &[u8], entry: &mut [u8]) -> AnswerInC
    ensures value { result ≡ in_c (read_answer house (read_presentation presentation.now) entry.old) }
    ensures after { entry.new ≡ read_out house (read_presentation presentation.now) entry.old }
    ensures are_octets { AreOctets presentation.now }
{
    AnswerInC::from(entry::enter::enter(chip::presentation::read(presentation), house, entry))
}

// The record of exactly one entry is written as a text.
pub fn lamphudet_write_text(entry: &[u8], text: &mut [u8]) -> AnswerInC
    ensures value { result ≡ in_c (written_answer entry.now text.old) }
    ensures text_after { text.new ≡ written_out entry.now text.old }
    ensures are_octets { AreOctets entry.now }
{
    AnswerInC::from(as_entry::write_one(entry, text))
}

// The house and the record of exactly one entry.
pub fn lamphudet_open_entry(entry: &[u8]) -> RecordInC
    ensures value { result ≡ opened_in_c entry.now }
    ensures are_octets { AreOctets entry.now }
{
    as_entry::open_one(entry)
}

// Where a run of entries goes on.
pub fn lamphudet_next_entry(run: &[u8], offset: u64) -> AnswerInC
    ensures value { result ≡ next_in_c (read_entry run.now offset).onward }
    ensures are_octets { AreOctets run.now }
{
    AnswerInC::from(runs::run::next(run, offset as usize))
}

// The SHA-256 digest of the input, into the first 32 octets of the output.
pub fn lamphudet_digest(input: &[u8], digest: &mut [u8]) -> AnswerInC
    ensures value { result ≡ in_c (digest_answer input.now digest.old) }
    ensures digest_after { digest.new ≡ digest_out input.now digest.old }
    ensures are_octets { AreOctets input.now }
{
    AnswerInC::from(digest::digest(input, digest))
}

// Where the file of a group stands in a presentation.
pub fn lamphudet_group_file(presentation: &[u8], group: u32) -> StretchInC
    ensures value { result ≡ stretch_in_c (group_stretch presentation.now group) }
    ensures are_octets { AreOctets presentation.now }
{
    StretchInC::from(chip::group_file::group_stretch(presentation, group))
}

// How many elements a group's file has.
pub fn lamphudet_look_inside(file: &[u8]) -> AnswerInC
    ensures value { result ≡ count_in_c (look_inside file.now) }
    ensures are_octets { AreOctets file.now }
{
    AnswerInC::from(inside::look(file))
}

// Where a detail of group 11 stands in its file, asked for by the tag that the file's list names it by.
pub fn lamphudet_read_detail(file: &[u8], tag: u32) -> DetailInC
    ensures value { result ≡ detail_in_c (read_detail file.now tag) }
    ensures are_octets { AreOctets file.now }
{
    DetailInC::from(details::read(file, tag))
}

// Where the full name stands, in group 11's file or in the text.
pub fn lamphudet_full_name(file: &[u8], text: &[u8]) -> NameInC
    ensures value { result ≡ name_in_c (full_name file.now text.now) }
    ensures are_octets { AreOctets file.now }
    ensures are_octets_2 { AreOctets text.now }
{
    NameInC::from(full_name::find(file, text))
}

// How many entries the store's nightly list has.
pub fn lamphudet_look_over(list: &[u8]) -> AnswerInC
    ensures value { result ≡ count_in_c (look_over list.now) }
    ensures are_octets { AreOctets list.now }
{
    AnswerInC::from(nightly::look_over(list))
}

// Where the entries of a house stand in the list.
pub fn lamphudet_house_entries(list: &[u8], house: u32) -> StretchInC
    ensures value { result ≡ stretch_in_c (house_stretch list.now house) }
    ensures are_octets { AreOctets list.now }
{
    StretchInC::from(nightly::house_stretch(list, house))
}

// The version of this library.
pub fn lamphudet_version() -> u32
    ensures { result ≡ version_number }
{
    version::number()
}
