// Where each part of an entry begins, in bits: each begins where the one before it ends. An entry is written and read in units
// of six bits, each in an octet of its own, of which four are three octets.
use zone::form::Form;

pub const CHARACTER: usize = 6;

pub const HOUSE: usize = 0;

pub const HOUSE_BITS: usize = 15;

pub const FORM: usize = HOUSE + HOUSE_BITS;

pub const FORM_BITS: usize = 3;

pub const STATE: usize = FORM + FORM_BITS;

pub const NUMBER: usize = STATE + CHARACTER * Form::STATE;

pub const BIRTH: usize = NUMBER + CHARACTER * Form::NUMBER;

pub const EXPIRY: usize = BIRTH + CHARACTER * Form::DATE;

pub const CODE: usize = EXPIRY + CHARACTER * Form::DATE;

pub const NATIONALITY: usize = CODE + CHARACTER * Form::CODE;

pub const SEX: usize = NATIONALITY + CHARACTER * Form::STATE;

pub const SEX_BITS: usize = 2;

pub const OWN_LENGTH: usize = SEX + SEX_BITS;

pub const OWN_LENGTH_BITS: usize = 5;

pub const OWN: usize = OWN_LENGTH + OWN_LENGTH_BITS;

// Of the name the place is told by the data before it.
pub const NAME_LENGTH_BITS: usize = 6;

// The bits of an entry but for the characters of data and name.
pub const BARE: usize = OWN + NAME_LENGTH_BITS;

// What stands before the length of the data, the front, is whole octets, of which the fours of units hold two more.
pub const FRONT: usize = OWN_LENGTH / 8;

pub const FRONT_FOURS: usize = FRONT / 3 + 1;

pub const FRONT_UNITS: usize = 4 * FRONT_FOURS;

// Two lengths, data and name: enough for the longest, with one four behind it.
pub const REST_UNITS: usize = 4 * ((Form::OWN + Form::NAME + 5) / 4 + 1);

pub const UNITS: usize = FRONT_UNITS + REST_UNITS;

// Room for the octets of the longest entry, to whole fours.
pub const OCTETS: usize = UNITS / 4 * 3;

pub const STATE_UNIT: usize = STATE / CHARACTER;

pub const NUMBER_UNIT: usize = NUMBER / CHARACTER;

pub const BIRTH_UNIT: usize = BIRTH / CHARACTER;

pub const EXPIRY_UNIT: usize = EXPIRY / CHARACTER;

pub const CODE_UNIT: usize = CODE / CHARACTER;

pub const NATIONALITY_UNIT: usize = NATIONALITY / CHARACTER;

pub const SEX_UNIT: usize = SEX / CHARACTER;

// The length of the data is a unit, of which the first bit is left out; that of the name stands behind them, and then the name.
pub const OWN_UNIT: usize = FRONT_UNITS + 1;

pub const NAME_UNIT: usize = OWN_UNIT + 1;
