// Tags as document 01 and, of printable strings, document 02 (2026-04) name them, and the groups of theirs.
ghost use Rattle.std.specs.Prelude.{◌≡◌, ◌≤◌};
ghost use Rattle.tlv.specs.Tags.{group_of, is_group};

pub const EF_COM: u16 = 0x60;

pub const SEQUENCE: u16 = 0x30;

pub const LDS_VERSION: u16 = 0x5F01;

pub const UNICODE_VERSION: u16 = 0x5F36;

pub const TAG_LIST: u16 = 0x5C;

pub const INTEGER: u16 = 0x02;

pub const OCTET_STRING: u16 = 0x04;

pub const PRINTABLE_STRING: u16 = 0x13;

pub const TEXT: u16 = 0x5F1F;

// The group of a tag, 0 where it is no group's. Each has an arm of its own: so the compiler makes a table of them, and tags in no
// order cost no more than others.
pub fn group_of(tag: u8) -> u8
    ensures { (result ≡ group_of tag) × (result ≤ 16) }
{
    match tag {
        0x61 => 1,
        0x75 => 2,
        0x63 => 3,
        0x76 => 4,
        0x65 => 5,
        0x67 => 7,
        0x68 => 8,
        0x69 => 9,
        0x6A => 10,
        0x6B => 11,
        0x6C => 12,
        0x6D => 13,
        0x6E => 14,
        0x6F => 15,
        0x70 => 16,
        _ => 0,
    }
}

pub fn is_group(tag: u8) -> bool
    ensures { result ≡ is_group tag }
{
    group_of(tag) != 0
}
