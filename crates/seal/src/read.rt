// Reading a seal: its header, its features, the image in feature 02, its signature, then the text.
ghost use Rattle.std.specs.Prelude.{◌≡◌};
ghost use Rattle.text.specs.Read as T;
ghost use Rattle.seal.specs.Seal as S;

use refusal::{Cause, Refusal};
use seal_features::features::{Features, walk};
use seal_features::signature::signature_at;
use seal_fields::spaces::to_fillers;
use seal_header::header::Header;
use text::read::read as read_text;
use tlv::Stretch;
use zone::alphabet::FILLER;
use zone::form::{Form, Source};
use zone::record::Record;

// What a seal says.
#[derive(Clone, Copy)]
pub struct Seal {
    pub header: Header,
    pub kept: Record,
    pub signature: Stretch,
}

// The text's refusals stand at the feature's first octet.
fn with_text(
    header: Header,
    at: usize,
    read: Result<Record, Refusal>,
    signature: Stretch,
) -> Result<Seal, Refusal>
    ensures { S.answer_of result ≡ S.answer_by (S.with_text header at (T.answer_of read) signature) }
{
    match read {
        Ok(kept) => Ok(Seal {
            header,
            kept,
            signature,
        }),
        Err(own) => Err(Refusal::at(own.cause, at)),
    }
}

// The signature zone, then the text, whose spaces become fillers.
fn with_image(
    s: &[u8],
    header: Header,
    found: Features,
    image: [u8; Form::TD2_TEXT],
) -> Result<Seal, Refusal>
    ensures { S.answer_of result ≡ S.answer_by (S.with_image s.now header found image) }
{
    let signature = signature_at(s, found.end)?;
    let mut text = image;
    to_fillers(&mut text);
    with_text(
        header,
        found.text,
        read_text(Source::Seal, &text),
        signature,
    )
}

// Feature 02 must be there, and its 48 octets be 72 characters.
fn with_features(s: &[u8], header: Header, found: Features) -> Result<Seal, Refusal>
    ensures { S.answer_of result ≡ S.answer_by (S.with_features s.now header found) }
{
    if found.text == 0 {
        return Err(Refusal::at(Cause::SealFeature, found.end));
    }
    let mut image = [FILLER; Form::TD2_TEXT];
    // Its tag, its length and 48 octets.
    if c40::field::field_at(lent::part(s, found.text, 50), 2, &mut image) {
        with_image(s, header, found, image)
    } else {
        Err(Refusal::at(Cause::SealText, found.text))
    }
}

// Any octets at all are read as a seal, or refused with cause and place.
pub fn read(s: &[u8]) -> Result<Seal, Refusal>
    ensures { S.answer_of result ≡ S.read_seal s.now }
{
    if 65535 < s.len() {
        return Err(Refusal::at(Cause::Length, 0));
    }
    let headed = seal_header::header::read(s);
    headed.verdict?;
    let found = walk(s, headed.end)?;
    with_features(s, headed.header, found)
}
