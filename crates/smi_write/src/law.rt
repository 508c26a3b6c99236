ghost use Rattle.std.specs.Prelude.{◌≡◌, ◌<◌, ℕ, List, Option, Some, length, map, false, slice_get};
ghost use Rattle.mc_mol.specs.declared.parts.Slot.{Slot};
ghost use Rattle.mc_mol.specs.Molecule.{Molecule};
ghost use Rattle.mc_mol.specs.Same.{carried, SameCentre};
ghost use Rattle.mc_mol.specs.WellFormed.{IsMolecule};
ghost use Rattle.smi_graph.specs.Roles.{role_of};
ghost use Rattle.smi_graph.specs.declared.role.Role.TheVariants as role;
ghost use Rattle.smi_lex.specs.declared.token.BondMark.{BondMark};
ghost use Rattle.smi_lex.specs.declared.token.TokenKind.{TokenKind};
ghost use Rattle.smi_mean.specs.Order.{Graph, atoms, graph_of, order, parents, steps, at};
ghost use Rattle.smi_graph.specs.TextOrder.{neighbours};
ghost use Rattle.smi_mean.specs.CentrePlaces.{places, centre_of};
ghost use Rattle.smi_mean.specs.Written.{graph_tokens, written_order};
ghost use Rattle.smi_mean.specs.WrittenPlaces.{parity_mark, written_neighbours, written_places};
ghost use Rattle.smi_write.specs.Nested.{IsNested};
ghost use Rattle.smi_write.specs.Structure.{IsOrder, ReadsAs, SayOrders};

/// The parents of the written atoms are nested.
#[tactic(auto, using(crate::proofs::Walk::order_nested))]
pub fn nested_law()
    ensures { (g : Graph) → IsNested 1 (parents (steps g g.count)) }
{}

/// Each atom stands once in the written order.
pub fn order_law()
    ensures { (m : Molecule) → IsOrder m (atoms (order (graph_of m))) }
{}

/// The tokens of a molecule are read as this molecule, whichever tokens its atoms have and with any symbols that say
/// the orders of its bonds.
pub fn structure_law()
    ensures { (m : Molecule) (symbols : ℕ → ℕ → Option BondMark) → IsMolecule m → SayOrders m symbols → (token : ℕ → TokenKind) → ((u : ℕ) → role_of (token u) ≡ role.Atom false)
        → ReadsAs m symbols (map role_of (graph_tokens (graph_of m) symbols token)) }
{}

/// In the text of a molecule, whichever tokens its atoms and which symbols its bonds have, the neighbours of each atom
/// stand in the written order. So the places that are read are carried to the written order of the molecule's, and where
/// each centre has the mark of the parity between its list and that order, the list that is read says the same.
#[tactic(auto, using(crate::proofs::PlacesRead::neighbours_read, crate::proofs::PlacesRead::carried_read, crate::proofs::CentreKept::centre_kept))]
pub fn places_law()
    ensures neighbours { (g : Graph) (symbols : ℕ → ℕ → Option BondMark) (token : ℕ → TokenKind) → ((u : ℕ) → role_of (token u) ≡ role.Atom false) → (k : ℕ) → k < g.count
        → neighbours k (map role_of (graph_tokens g symbols token)) ≡ written_neighbours g k }
    ensures places { (m : Molecule) (symbols : ℕ → ℕ → Option BondMark) (token : ℕ → TokenKind) → ((u : ℕ) → role_of (token u) ≡ role.Atom false) → (k hydrogens : ℕ) → k < length m.atoms
        → map (carried (written_order m)) (places (map role_of (graph_tokens (graph_of m) symbols token)) k hydrogens) ≡ written_places (graph_of m) k hydrogens }
    ensures centres { (m : Molecule) (symbols : ℕ → ℕ → Option BondMark) (token : ℕ → TokenKind) → IsMolecule m → ((u : ℕ) → role_of (token u) ≡ role.Atom false)
        → (k hydrogens : ℕ) (centre : Option (List Slot)) → k < length m.atoms → slice_get m.centres (at (graph_of m) k) ≡ Some centre
        → SameCentre (written_order m) (centre_of (parity_mark centre (written_places (graph_of m) k hydrogens)) (places (map role_of (graph_tokens (graph_of m) symbols token)) k hydrogens)) centre }
{}
