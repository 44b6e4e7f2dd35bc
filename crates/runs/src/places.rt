// Room for what is read: every two lengths that five bits and six say, also those that no record has.
use entry::places;

pub(crate) const REST_FOURS: usize = (31 + 63 + 5) / 4;

// The rest's units begin a bit before it.
pub(crate) const REST: usize = places::OWN_LENGTH - 1;

pub(crate) const UNITS: usize = places::FRONT_UNITS + 4 * REST_FOURS;

// Four octets are read at once, so that one more stands behind the last three.
pub(crate) const OCTETS: usize = places::FRONT + 3 * REST_FOURS + 2;
