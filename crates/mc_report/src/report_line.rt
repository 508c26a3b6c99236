ghost use Rattle.std.specs.Prelude.{◌≡◌};
ghost use Rattle.mc_report.specs.Grammar.{number_of};

use mc_base::{AtomList, Refusal};

/// What a line of the report says of the record with this number, from 1: it was written, and entry k of
/// the map is the read atom of written atom k; or it was refused.
#[derive(Drop)]
pub enum ReportLine {
    Ok { k: u64, map: AtomList },
    Refused { k: u64, refusal: Refusal },
}

impl ReportLine {
    /// The number of the record, from 1.
    pub fn number(&self) -> u64
        ensures { result ≡ number_of self.now }
    {
        match self {
            ReportLine::Ok { k, .. } => *k,
            ReportLine::Refused { k, .. } => *k,
        }
    }
}
