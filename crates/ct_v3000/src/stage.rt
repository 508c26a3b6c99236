ghost use Rattle.std.specs.Prelude.{◌≡◌};
ghost use Rattle.ct_v3000.specs.Blocks.{start, at_stage, is_unsigned, is_counts, framed, counted, counted_line, open_line, between_blocks, in_bonds, in_sgroups, in_collections, behind_table, step_by, may_end, is_rest};

use crate::number::unsigned;
use crate::words::Words;

/// Which line may come next in a record.
#[derive(Clone, Copy, Debug, PartialEq, Eq)]
pub enum Stage {
    /// `BEGIN CTAB`
    Start,
    /// `COUNTS`
    Counts,
    /// `BEGIN ATOM`
    AtomBlock,
    /// atom lines, and `END ATOM`
    Atoms,
    /// a block, or `END CTAB`
    Between,
    /// bond lines, and `END BOND`
    Bonds,
    /// lines up to `END SGROUP`
    Sgroups,
    /// lines up to `END COLLECTION`
    Collections,
    /// lines up to `END OBJ3D`
    Objects,
    /// the end, or `BEGIN RGROUP`
    Done,
    /// anything
    Rest,
}

/// What a joined line is.
#[derive(Clone, Copy, Debug, PartialEq, Eq)]
pub enum Role {
    /// a line that begins or ends a block, or is passed
    Frame,
    Atom,
    Bond,
    Sgroup,
    Collection,
    /// a query feature as a whole
    Query,
    /// a line that may not stand here
    Wrong,
}

/// Where a reader is in the blocks of a record.
#[derive(Clone, Copy, Debug, PartialEq, Eq)]
pub struct Place {
    pub stage: Stage,
    /// how many lines of the block are still to come
    pub left: u64,
    /// how many bonds are counted
    pub bonds: u64,
    pub bonds_stood: bool,
    pub sgroups_stood: bool,
    pub collections_stood: bool,
}

/// What a line is, and where the reader is behind it.
#[derive(Clone, Copy, Debug, PartialEq, Eq)]
pub struct Step {
    pub role: Role,
    pub behind: Place,
}

impl Stage {
    pub fn may_end(self) -> bool
        ensures { result ≡ may_end self }
    {
        match self {
            Stage::Done | Stage::Rest => true,
            _ => false,
        }
    }

    /// Whether no words are read.
    pub fn is_rest(self) -> bool
        ensures { result ≡ is_rest self }
    {
        match self {
            Stage::Rest => true,
            _ => false,
        }
    }
}

impl Place {
    pub fn start() -> Place
        ensures { result ≡ start }
    {
        Place {
            stage: Stage::Start,
            left: 0,
            bonds: 0,
            bonds_stood: false,
            sgroups_stood: false,
            collections_stood: false,
        }
    }

    fn at(self, stage: Stage) -> Place
        ensures { result ≡ at_stage stage self }
    {
        Place { stage, ..self }
    }

    /// A line that must fit, and the place behind it.
    fn framed(self, fits: bool, behind: Place) -> Step
        ensures { result ≡ framed fits self behind }
    {
        if fits {
            Step {
                role: Role::Frame,
                behind,
            }
        } else {
            Step {
                role: Role::Wrong,
                behind: self,
            }
        }
    }

    /// A line of a block that has so many of them.
    fn counted_line(self, role: Role, block: &[u8], words: &Words<'_>) -> Step
        ensures { result ≡ counted_line role block.now words.now self }
    {
        if words.is_line(b"END", block) {
            self.framed(self.left == 0, self.at(Stage::Between))
        } else if self.left == 0 {
            Step {
                role: Role::Wrong,
                behind: self,
            }
        } else {
            Step {
                role,
                behind: Place {
                    left: self.left - 1,
                    ..self
                },
            }
        }
    }

    /// A line of a block that goes on up to its end.
    fn open_line(self, role: Role, block: &[u8], words: &Words<'_>) -> Step
        ensures { result ≡ open_line role block.now words.now self }
    {
        if words.is_line(b"END", block) {
            Step {
                role: Role::Frame,
                behind: self.at(Stage::Between),
            }
        } else {
            Step { role, behind: self }
        }
    }

    /// Behind the counts.
    fn counted(self, words: &Words<'_>) -> Place
        ensures { result ≡ counted words.now self }
    {
        Place {
            stage: Stage::AtomBlock,
            left: unsigned(words.word(1)).unwrap_or(0),
            bonds: unsigned(words.word(2)).unwrap_or(0),
            ..self
        }
    }

    /// A line between blocks.
    #[tactic(auto, unfolding(crate::specs::Blocks::between_blocks))]
    fn between_blocks(self, words: &Words<'_>) -> Step
        ensures { result ≡ between_blocks words.now self }
    {
        if words.is_line(b"END", b"CTAB") {
            let fits = self.bonds == 0 || self.bonds_stood;
            self.framed(fits, self.at(Stage::Done))
        } else if words.word_is(0, b"LINKNODE") {
            Step {
                role: Role::Query,
                behind: self,
            }
        } else if words.is_line(b"BEGIN", b"OBJ3D") {
            Step {
                role: Role::Query,
                behind: self.at(Stage::Objects),
            }
        } else if words.is_line(b"BEGIN", b"BOND") {
            self.framed(!self.bonds_stood, self.in_bonds())
        } else if words.is_line(b"BEGIN", b"SGROUP") {
            self.framed(!self.sgroups_stood, self.in_sgroups())
        } else if words.is_line(b"BEGIN", b"COLLECTION") {
            self.framed(!self.collections_stood, self.in_collections())
        } else {
            Step {
                role: Role::Wrong,
                behind: self,
            }
        }
    }

    fn in_bonds(self) -> Place
        ensures { result ≡ in_bonds self }
    {
        Place {
            stage: Stage::Bonds,
            left: self.bonds,
            bonds_stood: true,
            ..self
        }
    }

    fn in_sgroups(self) -> Place
        ensures { result ≡ in_sgroups self }
    {
        Place {
            stage: Stage::Sgroups,
            sgroups_stood: true,
            ..self
        }
    }

    fn in_collections(self) -> Place
        ensures { result ≡ in_collections self }
    {
        Place {
            stage: Stage::Collections,
            collections_stood: true,
            ..self
        }
    }

    /// Behind the end of the table.
    fn behind_table(self, words: &Words<'_>) -> Step
        ensures { result ≡ behind_table words.now self }
    {
        if words.begins(b"BEGIN", b"RGROUP") {
            Step {
                role: Role::Query,
                behind: self.at(Stage::Rest),
            }
        } else {
            Step {
                role: Role::Wrong,
                behind: self,
            }
        }
    }

    /// What a line of these words is here, and where the reader is behind it.
    #[tactic(auto, unfolding(crate::specs::Blocks::step_by))]
    pub fn step(self, words: &Words<'_>) -> Step
        ensures { result ≡ step_by self.stage words.now self }
    {
        match self.stage {
            Stage::Start => self.framed(words.begins(b"BEGIN", b"CTAB"), self.at(Stage::Counts)),
            Stage::Counts => self.framed(is_counts(words), self.counted(words)),
            Stage::AtomBlock => self.framed(
                words.is_line(b"BEGIN", b"ATOM"),
                self.at(Stage::Atoms),
            ),
            Stage::Atoms => self.counted_line(Role::Atom, b"ATOM", words),
            Stage::Between => self.between_blocks(words),
            Stage::Bonds => self.counted_line(Role::Bond, b"BOND", words),
            Stage::Sgroups => self.open_line(Role::Sgroup, b"SGROUP", words),
            Stage::Collections => self.open_line(Role::Collection, b"COLLECTION", words),
            Stage::Objects => self.open_line(Role::Frame, b"OBJ3D", words),
            Stage::Done => self.behind_table(words),
            Stage::Rest => Step {
                role: Role::Frame,
                behind: self,
            },
        }
    }
}

fn is_unsigned(text: &[u8]) -> bool
    ensures { result ≡ is_unsigned text.now }
{
    unsigned(text).is_some()
}

fn is_counts(words: &Words<'_>) -> bool
    ensures { result ≡ is_counts words.now }
{
    words.word_is(0, b"COUNTS")
        && is_unsigned(words.word(1))
        && is_unsigned(words.word(2))
        && is_unsigned(words.word(3))
        && is_unsigned(words.word(4))
        && is_unsigned(words.word(5))
}
