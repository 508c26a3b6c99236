ghost use Rattle.std.specs.Prelude.{◌≡◌, ◌<◌, IfSome, IfNone, ℕ};
ghost use Rattle.mc_base.specs.declared.kind.Kind.{Kind};
ghost use Rattle.mc_base.specs.Kinds.{number, kind_name};

/// The causes for which a record is refused, in the order in which they are looked for: a record is
/// refused with the first kind that stands in it, at the least place at which it stands.
#[derive(Clone, Copy, Debug, PartialEq, Eq)]
pub enum Kind {
    /// a record that this version doesn't read yet
    NotBuilt,
    /// a line has more bytes than the limit
    LineTooLong,
    /// a record has more bytes than the limit
    RecordTooLong,
    /// no token begins at a byte of a SMILES text
    BadToken,
    /// a SMILES text has a `*` atom
    Wildcard,
    /// a bracket atom has a chirality class that isn't tetrahedral
    OtherChirality,
    /// a CTfile record ends too early
    ShortRecord,
    /// a reaction or RDfile
    ReactionFile,
    /// a CTfile version other than V2000 and V3000
    Version,
    /// a field or line of a CTfile isn't of its grammar
    BadField,
    /// a query feature
    Query,
    /// a bond type that has no order
    BondType,
    /// a radical
    Radical,
    /// a reaction field
    Reaction,
    /// an Sgroup whose type isn't passed
    Sgroup,
    /// an atom alias
    Alias,
    /// an stext entry
    Stext,
    /// a relative or racemic collection
    EnhancedStereo,
    /// a mass difference without a reference mass
    MassDifference,
    /// a z coordinate other than 0
    ThreeD,
    /// a SMILES token stands where it may not
    BadOrder,
    /// a branch is never closed
    ParenOpen,
    /// a ring number has no partner
    RingOpen,
    /// the two ends of a ring bond have different orders
    RingClash,
    /// a ring number joins an atom to itself, or a joined pair
    RingPair,
    /// an aromatic bond symbol at an upper-case atom
    AromaticBond,
    /// an atom that isn't there is named, or an index is given twice
    AtomNumber,
    /// a bond joins an atom to itself, or a joined pair
    BondPair,
    /// too many atoms
    LimitAtoms,
    /// too many bonds
    LimitBonds,
    /// too many independent rings
    LimitRings,
    /// an isotope above its limit
    LimitIsotope,
    /// an atom class above its limit
    LimitClass,
    /// a charge outside its limits
    LimitCharge,
    /// a coordinate outside its limits
    LimitCoordinate,
    /// too many hydrogens at one atom
    LimitHydrogens,
    /// a valence field below the bond sum
    ValenceShort,
    /// bond sum with hydrogens above its limit
    LimitValence,
    /// a hydrogen atom that has hydrogens
    HydrogenOnHydrogen,
    /// lower-case atoms have no placement of double bonds
    NoPlacement,
    /// a chiral mark at an atom that may not be a stereocentre
    NotACentre,
    /// two direction marks of one ring bond disagree
    DirectionConflict,
    /// wedges that name no one stereocentre
    AmbiguousCentre,
    /// a quadruple bond, which a CTfile can't hold
    Quadruple,
    /// double bond geometry in a ring, which a CTfile can't hold here
    RingSides,
    /// direction marks would say the geometry of an unspecified double bond
    Crowded,
    /// a name that would begin another record
    Name,
}

impl Kind {
    /// The kind's name, as a report line has it.
    pub fn name(self) -> &'static [u8]
        ensures { result.now ≡ kind_name self }
    {
        match self {
            Kind::NotBuilt => b"NotBuilt",
            Kind::LineTooLong => b"LineTooLong",
            Kind::RecordTooLong => b"RecordTooLong",
            Kind::BadToken => b"BadToken",
            Kind::Wildcard => b"Wildcard",
            Kind::OtherChirality => b"OtherChirality",
            Kind::ShortRecord => b"ShortRecord",
            Kind::ReactionFile => b"ReactionFile",
            Kind::Version => b"Version",
            Kind::BadField => b"BadField",
            Kind::Query => b"Query",
            Kind::BondType => b"BondType",
            Kind::Radical => b"Radical",
            Kind::Reaction => b"Reaction",
            Kind::Sgroup => b"Sgroup",
            Kind::Alias => b"Alias",
            Kind::Stext => b"Stext",
            Kind::EnhancedStereo => b"EnhancedStereo",
            Kind::MassDifference => b"MassDifference",
            Kind::ThreeD => b"ThreeD",
            Kind::BadOrder => b"BadOrder",
            Kind::ParenOpen => b"ParenOpen",
            Kind::RingOpen => b"RingOpen",
            Kind::RingClash => b"RingClash",
            Kind::RingPair => b"RingPair",
            Kind::AromaticBond => b"AromaticBond",
            Kind::AtomNumber => b"AtomNumber",
            Kind::BondPair => b"BondPair",
            Kind::LimitAtoms => b"LimitAtoms",
            Kind::LimitBonds => b"LimitBonds",
            Kind::LimitRings => b"LimitRings",
            Kind::LimitIsotope => b"LimitIsotope",
            Kind::LimitClass => b"LimitClass",
            Kind::LimitCharge => b"LimitCharge",
            Kind::LimitCoordinate => b"LimitCoordinate",
            Kind::LimitHydrogens => b"LimitHydrogens",
            Kind::ValenceShort => b"ValenceShort",
            Kind::LimitValence => b"LimitValence",
            Kind::HydrogenOnHydrogen => b"HydrogenOnHydrogen",
            Kind::NoPlacement => b"NoPlacement",
            Kind::NotACentre => b"NotACentre",
            Kind::DirectionConflict => b"DirectionConflict",
            Kind::AmbiguousCentre => b"AmbiguousCentre",
            Kind::Quadruple => b"Quadruple",
            Kind::RingSides => b"RingSides",
            Kind::Crowded => b"Crowded",
            Kind::Name => b"Name",
        }
    }

    /// The kind of a name.
    pub fn of_name(name: &[u8]) -> Option<Kind>
        ensures found { IfSome result (λ kind. kind_name kind ≡ name.now) }
        ensures only { (kind : Kind) → kind_name kind ≡ name.now → result ≡ Some kind }
        ensures none { IfNone result ((kind : Kind) → kind_name kind ≡ name.now → ⊥) }
    {
        for kind in &ALL {
            if kind.name() == name {
                return Some(*kind);
            }
        }
        None
    }

    /// The place of the kind in the order of kinds; 0 is looked for first.
    pub fn number(self) -> u8
        ensures { result ≡ number self }
    {
        self as u8
    }
}

/// Every kind, in order.
const ALL: [Kind; 47] = [
    Kind::NotBuilt,
    Kind::LineTooLong,
    Kind::RecordTooLong,
    Kind::BadToken,
    Kind::Wildcard,
    Kind::OtherChirality,
    Kind::ShortRecord,
    Kind::ReactionFile,
    Kind::Version,
    Kind::BadField,
    Kind::Query,
    Kind::BondType,
    Kind::Radical,
    Kind::Reaction,
    Kind::Sgroup,
    Kind::Alias,
    Kind::Stext,
    Kind::EnhancedStereo,
    Kind::MassDifference,
    Kind::ThreeD,
    Kind::BadOrder,
    Kind::ParenOpen,
    Kind::RingOpen,
    Kind::RingClash,
    Kind::RingPair,
    Kind::AromaticBond,
    Kind::AtomNumber,
    Kind::BondPair,
    Kind::LimitAtoms,
    Kind::LimitBonds,
    Kind::LimitRings,
    Kind::LimitIsotope,
    Kind::LimitClass,
    Kind::LimitCharge,
    Kind::LimitCoordinate,
    Kind::LimitHydrogens,
    Kind::ValenceShort,
    Kind::LimitValence,
    Kind::HydrogenOnHydrogen,
    Kind::NoPlacement,
    Kind::NotACentre,
    Kind::DirectionConflict,
    Kind::AmbiguousCentre,
    Kind::Quadruple,
    Kind::RingSides,
    Kind::Crowded,
    Kind::Name,
];

/// The order of kinds has no two at one place.
#[tactic(auto, using(crate::proofs::AllKinds::same_number))]
pub fn order_law()
    ensures { (a b : Kind) → number a ≡ number b → a ≡ b }
{}
