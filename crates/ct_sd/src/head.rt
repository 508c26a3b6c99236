ghost use Rattle.std.specs.Prelude.{◌≡◌};
ghost use Rattle.ct_sd.specs.Heads.{is_other_file, version_named, version_of};

use crate::text::equals;
use crate::{Record, trimmed};

/// The version of a connection table.
#[derive(Clone, Copy, Debug, PartialEq, Eq)]
pub enum Version {
    V2000,
    V3000,
    /// none that is read
    Other,
}

impl Version {
    /// The version of a record, which line 4 says; a record without that line is a V2000 record.
    #[tactic(auto, using(crate::proofs::Ranges::no_version), unfolding(crate::specs::Heads::version_of))]
    pub fn of(given: &Record<'_>) -> Version
        ensures { result ≡ version_of given.now }
    {
        if given.line_count() < 4 {
            return Version::V2000;
        }
        Version::named(trimmed(given.line(3), 34, 39))
    }

    fn named(text: &[u8]) -> Version
        ensures { result ≡ version_named text.now }
    {
        if text.is_empty() || equals(text, b"V2000") {
            Version::V2000
        } else if equals(text, b"V3000") {
            Version::V3000
        } else {
            Version::Other
        }
    }
}

/// Whether a name begins as the first line of a reaction file, an RDfile or another file of this family does.
pub fn is_other_file(name: &[u8]) -> bool
    ensures { result ≡ is_other_file name.now }
{
    name.starts_with(b"$RXN") || name.starts_with(b"$RDFILE") || name.starts_with(b"$MDL")
}
