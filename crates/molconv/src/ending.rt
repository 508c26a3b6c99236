use mc_convert::Status;
use std::io;

const USAGE: &str =
    "usage: molconv convert --from smi --to smi [FILE]\nusage: molconv check --from smi --to smi ORIGINAL CONVERTED REPORT\n";

/// What is said of a status on standard error: after wrong words the usage, a line for each command.
pub fn message(status: Status) -> &'static str {
    match status {
        Status::Done | Status::SomeRefused => "",
        Status::Usage => USAGE,
        Status::ReadFault => "molconv: an input could not be read\n",
        Status::WriteFault => "molconv: an output could not be written\n",
        Status::Memory => "molconv: out of memory\n",
        Status::InputLimit => "molconv: input limit reached\n",
    }
}

/// Says on standard error why a run ended, if its report doesn't say it.
pub fn tell(rt: &impl Eprint, status: Status) -> io::Result<()> {
    rt.eprint(message(status))
}
