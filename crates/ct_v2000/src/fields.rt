//! The tables of fields: a row each, as the definitions of the lines have them.

use ct_sd::{Field, Grammar};
use mc_base::Kind;

// ---- the counts line

pub(crate) const ATOMS: Field = Field {
    from: 1,
    to: 3,
    grammar: Grammar::Count,
    least: 0,
    most: 999,
    shows: None,
};

pub(crate) const BONDS: Field = Field {
    from: 4,
    to: 6,
    grammar: Grammar::Count,
    least: 0,
    most: 999,
    shows: None,
};

pub(crate) const LISTS: Field = Field {
    from: 7,
    to: 9,
    grammar: Grammar::Count,
    least: 0,
    most: i64::MAX,
    shows: Some(Kind::Query),
};

pub(crate) const STEXT: Field = Field {
    from: 16,
    to: 18,
    grammar: Grammar::Count,
    least: 0,
    most: i64::MAX,
    shows: Some(Kind::Stext),
};

// ---- an atom line

pub(crate) const X: Field = Field {
    from: 1,
    to: 10,
    grammar: Grammar::Fixed,
    least: i64::MIN,
    most: i64::MAX,
    shows: None,
};

pub(crate) const Y: Field = Field {
    from: 11,
    to: 20,
    grammar: Grammar::Fixed,
    least: i64::MIN,
    most: i64::MAX,
    shows: None,
};

pub(crate) const Z: Field = Field {
    from: 21,
    to: 30,
    grammar: Grammar::Fixed,
    least: i64::MIN,
    most: i64::MAX,
    shows: Some(Kind::ThreeD),
};

pub(crate) const DIFFERENCE: Field = Field {
    from: 35,
    to: 36,
    grammar: Grammar::Count,
    least: i64::MIN,
    most: i64::MAX,
    shows: None,
};

pub(crate) const CODE: Field = Field {
    from: 37,
    to: 39,
    grammar: Grammar::Count,
    least: 0,
    most: 7,
    shows: None,
};

pub(crate) const HYDROGEN_QUERY: Field = Field {
    from: 43,
    to: 45,
    grammar: Grammar::Count,
    least: i64::MIN,
    most: i64::MAX,
    shows: Some(Kind::Query),
};

pub(crate) const VALENCE: Field = Field {
    from: 49,
    to: 51,
    grammar: Grammar::Count,
    least: 0,
    most: 15,
    shows: None,
};

pub(crate) const MAPPING: Field = Field {
    from: 61,
    to: 63,
    grammar: Grammar::Count,
    least: 0,
    most: i64::MAX,
    shows: None,
};

pub(crate) const INVERSION: Field = Field {
    from: 64,
    to: 66,
    grammar: Grammar::Count,
    least: i64::MIN,
    most: i64::MAX,
    shows: Some(Kind::Reaction),
};

pub(crate) const CHANGE: Field = Field {
    from: 67,
    to: 69,
    grammar: Grammar::Count,
    least: i64::MIN,
    most: i64::MAX,
    shows: Some(Kind::Reaction),
};

// ---- a bond line

pub(crate) const FIRST: Field = Field {
    from: 1,
    to: 3,
    grammar: Grammar::Count,
    least: 0,
    most: i64::MAX,
    shows: None,
};

pub(crate) const SECOND: Field = Field {
    from: 4,
    to: 6,
    grammar: Grammar::Count,
    least: 0,
    most: i64::MAX,
    shows: None,
};

pub(crate) const TYPE: Field = Field {
    from: 7,
    to: 9,
    grammar: Grammar::Count,
    least: 1,
    most: 10,
    shows: None,
};

pub(crate) const STEREO: Field = Field {
    from: 10,
    to: 12,
    grammar: Grammar::Count,
    least: 0,
    most: 6,
    shows: None,
};

pub(crate) const TOPOLOGY: Field = Field {
    from: 16,
    to: 18,
    grammar: Grammar::Count,
    least: i64::MIN,
    most: i64::MAX,
    shows: Some(Kind::Query),
};

pub(crate) const CENTRE: Field = Field {
    from: 19,
    to: 21,
    grammar: Grammar::Count,
    least: i64::MIN,
    most: i64::MAX,
    shows: Some(Kind::Reaction),
};

// ---- a property line with entries

pub(crate) const ENTRIES: Field = Field {
    from: 7,
    to: 9,
    grammar: Grammar::Count,
    least: 1,
    most: 8,
    shows: None,
};
