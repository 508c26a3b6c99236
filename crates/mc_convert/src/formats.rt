ghost use Rattle.std.specs.Prelude.{◌≡◌};
ghost use Rattle.mc_convert.specs.Formats.{origin_name, read_back, target_name};

/// What the records of an input are.
#[derive(Clone, Copy, Debug, PartialEq, Eq)]
pub enum Origin {
    /// lines of SMILES
    Smi,
}

impl Origin {
    /// The word for it.
    pub fn name(self) -> &'static [u8]
        ensures { result.now ≡ origin_name self }
    {
        match self {
            Origin::Smi => b"smi",
        }
    }
}

/// What records are written as.
#[derive(Clone, Copy, Debug, PartialEq, Eq)]
pub enum Target {
    /// lines of SMILES
    Smi,
}

impl Target {
    /// The word for it.
    pub fn name(self) -> &'static [u8]
        ensures { result.now ≡ target_name self }
    {
        match self {
            Target::Smi => b"smi",
        }
    }

    /// What a written record is, where it is read again.
    pub fn read_back(self) -> Origin
        ensures { result ≡ read_back self }
    {
        match self {
            Target::Smi => Origin::Smi,
        }
    }
}

/// What the records of a run are, and what they are to be.
#[derive(Clone, Copy, Debug, PartialEq, Eq)]
pub struct Formats {
    pub from: Origin,
    pub to: Target,
}
