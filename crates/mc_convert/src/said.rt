ghost use Rattle.std.specs.Prelude.{◌≡◌, IfOk};
ghost use Rattle.mc_convert.specs.Findings.{FindsSaid, if_numbered, line_met};
ghost use Rattle.mc_convert.specs.Readers.{IsLent};

use crate::records::Passed;
use mc_base::NoMemory;
use mc_io::Lines;
use mc_report::{ReportLine, read_line};
use std::alloc::Global;

/// What the line that was passed says of record k.
pub fn said_of(
    alloc: Global,
    k: u64,
    lines: &Lines,
    next: Option<Passed>,
) -> Result<Option<ReportLine>, NoMemory>
    requires { IsLent lines.now next }
    ensures { IfOk result (FindsSaid k (line_met next lines.now.text)) }
{
    match next {
        Some(Passed::Line) => {
            let said = read_line(alloc, lines.line())?;
            Ok(if_numbered(said, k))
        }
        Some(Passed::TooLong) => Ok(None),
        None => Ok(None),
    }
}

/// The same, if it speaks of record k.
fn if_numbered(said: Option<ReportLine>, k: u64) -> Option<ReportLine>
    ensures { result ≡ if_numbered said k }
{
    match said {
        Some(line) => { if line.number() == k { Some(line) } else { None } }
        None => None,
    }
}
