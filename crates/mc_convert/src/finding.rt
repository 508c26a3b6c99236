ghost use Rattle.std.specs.Prelude.{◌≡◌, ◌++◌, ◌↔◌, ◌⊎◌, ◌<◌, ℕ, List, [], Option, Some, None, OnOk, IfOk, IfSome, IsTrue, true, false, length, decimal};
ghost use Rattle.mc_base.specs.Shown.{HasReason};
ghost use Rattle.mc_base.specs.declared.span.Span.{Span as Place};
ghost use Rattle.mc_convert.specs.Answers.{IsBarrierOf, RecordStands, Shows};
ghost use Rattle.mc_convert.specs.Runs.{IsShown};
ghost use Rattle.mc_convert.specs.Records.{Record};
ghost use Rattle.mc_convert.specs.declared.formats.Target.{Target};
ghost use Rattle.mc_convert.specs.Findings.{is_true, difference_text, finding_text, verdict_line, shown_finding, IsMapFinding, MarksFit, HasCandidate, IsRead, IsReadAs, IsReadRefused, IsTableRead, IsTextKept, IsRefusalFinding, AreReadAs};
ghost use Rattle.smi_graph.specs.Candidates.{marked};
ghost use Rattle.smi_mean.specs.MeantCentres.{MarkFits};

use crate::record_read::RecordRead;
use mc_base::{AtomId, BondId, Kind, NoMemory, Refusal, Text, Verdict};
use mc_digits::put_number;
use mc_mol::Mol;
use mc_same::{check_map, check_stands};
use smi_graph::Skeleton;
use smi_mean::is_barrier_in;
use std::alloc::Global;

/// What is found for one original record.
#[derive(Clone, Copy, Debug, PartialEq, Eq)]
pub enum Finding {
    /// how original and converted record compare under the map of the report
    Map(Verdict),
    /// the original shows the refusal of the report
    Shown,
    /// no line of the report speaks of the original
    Report,
    /// no converted record is left
    Missing,
    /// the original is refused
    Input,
    /// the converted record is refused
    Output,
    /// the original doesn't show the refusal of the report
    Refusal,
}

impl Finding {
    /// Whether the record is carried over as the report says.
    pub fn is_true(self) -> bool
        ensures { result ≡ is_true self }
    {
        match self {
            Finding::Map(Verdict::True) => true,
            Finding::Shown => true,
            _ => false,
        }
    }

    /// Adds the line that is written of original k.
    pub fn put_line(self, lines: &mut Text, k: u64) -> Result<(), NoMemory>
        ensures { OnOk result (lines.new ≡ lines.old ++ verdict_line k self) }
    {
        put_number(lines, k)?;
        lines.push(b' ')?;
        push_finding(lines, self)?;
        lines.push(b'\n')?;
        Ok(())
    }
}

/// Words, and a number behind them.
fn push_numbered(text: &mut Text, words: &[u8], number: u32) -> Result<(), NoMemory>
    ensures { OnOk result (text.new ≡ text.old ++ (words.now ++ decimal number)) }
{
    text.extend(words)?;
    put_number(text, number as u64)
}

fn push_difference(text: &mut Text, verdict: Verdict) -> Result<(), NoMemory>
    ensures { OnOk result (text.new ≡ text.old ++ difference_text verdict) }
{
    match verdict {
        Verdict::True => text.extend(b"true"),
        Verdict::Length => text.extend(b"false length"),
        Verdict::Range(k) => push_numbered(text, b"false range ", k),
        Verdict::Repeat(k) => push_numbered(text, b"false repeat ", k),
        Verdict::Atom(k) => push_numbered(text, b"false atom ", k),
        Verdict::Bonds => text.extend(b"false bonds"),
        Verdict::Bond(k) => push_numbered(text, b"false bond ", k),
        Verdict::Centre(k) => push_numbered(text, b"false centre ", k),
        Verdict::Sides(k) => push_numbered(text, b"false sides ", k),
    }
}

fn push_finding(text: &mut Text, finding: Finding) -> Result<(), NoMemory>
    ensures { OnOk result (text.new ≡ text.old ++ finding_text finding) }
{
    match finding {
        Finding::Map(verdict) => push_difference(text, verdict),
        Finding::Shown => text.extend(b"true"),
        Finding::Report => text.extend(b"false report"),
        Finding::Missing => text.extend(b"false missing"),
        Finding::Input => text.extend(b"false input"),
        Finding::Output => text.extend(b"false output"),
        Finding::Refusal => text.extend(b"false refusal"),
    }
}

/// What is found of an original that is said to be written under a map, with the converted record that is next.
pub fn map_finding(
    alloc: Global,
    original: &RecordRead,
    converted: Option<RecordRead>,
    map: &[AtomId],
) -> Result<Finding, NoMemory>
    requires marks { MarksFit original.now }
    ensures { (to : Target) (given : Record) (next : Option Record) → IsReadAs given original.now → AreReadAs next converted
        → IfOk result (IsMapFinding to given next map.now) }
{
    match converted {
        None => Ok(Finding::Missing),
        Some(converted) => {
            let finding = compare(alloc, original, &converted, map)?;
            Ok(finding)
        }
    }
}

/// The same where there is a converted record.
fn compare(
    alloc: Global,
    original: &RecordRead,
    converted: &RecordRead,
    map: &[AtomId],
) -> Result<Finding, NoMemory>
    requires marks { MarksFit original.now }
    ensures { (to : Target) (given : Record) (next : Record) → IsReadAs given original.now → IsReadAs next converted.now
        → IfOk result (IsMapFinding to given (Some next) map.now) }
{
    match original {
        RecordRead::Refused(..) => Ok(Finding::Input),
        RecordRead::Stands { mol, skeleton, .. } => {
            let finding = compare_text(alloc, mol, skeleton, converted, map)?;
            Ok(finding)
        }
        RecordRead::Table { mol, .. } => {
            let finding = compare_molecule(alloc, mol, converted, map)?;
            Ok(finding)
        }
    }
}

/// The molecule of a converted record, where it can be read and says the order of each bond.
fn written_molecule(converted: &RecordRead) -> Option<&Mol>
    ensures some { (next : Record) → IsReadAs next converted.now → IfSome result (λ m. RecordStands next m.now × (HasCandidate next → ⊥)) }
    ensures none { (to : Target) (next : Record) → IsReadAs next converted.now → result ≡ None → IsShown to next ⊎ HasCandidate next }
{
    match converted {
        RecordRead::Refused(..) => None,
        RecordRead::Stands { mol, skeleton, .. } => {
            if has_candidate(skeleton) {
                None
            } else {
                Some(mol)
            }
        }
        RecordRead::Table { mol, .. } => Some(mol),
    }
}

/// What is found of a text that is said to be written under a map.
fn compare_text(
    alloc: Global,
    mol: &Mol,
    input: &Skeleton,
    converted: &RecordRead,
    map: &[AtomId],
) -> Result<Finding, NoMemory>
    requires marks { (k : ℕ) → k < length input.now.atoms → MarkFits input.now k }
    ensures { (to : Target) (given next : Record) (name : Place) → IsRead given mol.now input.now name → IsReadAs next converted.now
        → IfOk result (IsMapFinding to given (Some next) map.now) }
{
    match written_molecule(converted) {
        Some(output) => {
            let verdict = check_stands(alloc, input, output, map)?;
            Ok(Finding::Map(verdict))
        }
        None => Ok(Finding::Output),
    }
}

/// The same of a molecule.
fn compare_molecule(
    alloc: Global,
    mol: &Mol,
    converted: &RecordRead,
    map: &[AtomId],
) -> Result<Finding, NoMemory>
    ensures { (to : Target) (given next : Record) (name : List ℕ) (headers : ℕ) → IsTableRead given mol.now name headers → IsReadAs next converted.now
        → IfOk result (IsMapFinding to given (Some next) map.now) }
{
    match written_molecule(converted) {
        Some(output) => {
            let verdict = check_map(alloc, mol, output, map)?;
            Ok(Finding::Map(verdict))
        }
        None => Ok(Finding::Output),
    }
}

/// Whether some bond is single or double, and the text doesn't say which.
fn has_candidate(skeleton: &Skeleton) -> bool
    ensures yes { result ≡ true → (k : ℕ) × (k < length skeleton.now.bonds) × (marked skeleton.now.candidates k ≡ true) }
    ensures no { result ≡ false → (k : ℕ) → k < length skeleton.now.bonds → marked skeleton.now.candidates k ≡ false }
{
    for k in 0..skeleton.bond_count() {
        if skeleton.is_candidate(BondId(k)) {
            return true;
        }
    }
    false
}

/// What is found of an original that is said to show a refusal.
pub fn refusal_finding(
    alloc: Global,
    original: &RecordRead,
    refusal: &Refusal,
) -> Result<Finding, NoMemory>
    ensures { (to : Target) (given : Record) → IsReadAs given original.now → IfOk result (IsRefusalFinding to given refusal.now) }
{
    match original {
        RecordRead::Refused(shown, skeleton) => {
            let shows = shows_too(alloc, shown, skeleton, refusal)?;
            Ok(shown_finding(shows))
        }
        RecordRead::Stands { .. } => Ok(Finding::Refusal),
        RecordRead::Table { .. } => Ok(Finding::Refusal),
    }
}

fn shown_finding(shows: bool) -> Finding
    ensures { result ≡ shown_finding shows }
{
    if shows {
        Finding::Shown
    } else {
        Finding::Refusal
    }
}

/// Whether a record that shows one refusal shows another: kind and place are its own, and a barrier may be any.
fn shows_too(
    alloc: Global,
    shown: &Refusal,
    skeleton: &Option<Skeleton>,
    said: &Refusal,
) -> Result<bool, NoMemory>
    ensures { (to : Target) (given : Record) → IsReadRefused given shown.now skeleton.now → IfOk result (λ shows. IsTrue shows ↔ Shows to given said.now) }
{
    if !are_at_one_place(shown, said) {
        return Ok(false);
    }
    let has_reason = has_reason(alloc, skeleton, said)?;
    Ok(has_reason)
}

/// Whether two refusals are of one kind at one place.
fn are_at_one_place(first: &Refusal, second: &Refusal) -> bool
    ensures { IsTrue result ↔ ((first.now.kind ≡ second.now.kind) × (first.now.place ≡ second.now.place)) }
{
    first.kind == second.kind && first.place == second.place
}

/// Whether what is said beside kind and place is right.
fn has_reason(
    alloc: Global,
    skeleton: &Option<Skeleton>,
    refusal: &Refusal,
) -> Result<bool, NoMemory>
    ensures { (to : Target) (given : Record) → IsTextKept given refusal.now.kind skeleton.now
        → IfOk result (λ right. IsTrue right ↔ HasReason (IsBarrierOf to given) refusal.now.kind refusal.now.barrier refusal.now.odd) }
{
    match refusal.kind {
        Kind::NoPlacement => {
            let right = is_barrier(alloc, skeleton, refusal)?;
            Ok(right)
        }
        _ => Ok(has_no_barrier(refusal)),
    }
}

/// Whether a refusal names a barrier of a text.
fn is_barrier(
    alloc: Global,
    skeleton: &Option<Skeleton>,
    refusal: &Refusal,
) -> Result<bool, NoMemory>
    ensures { (to : Target) (given : Record) → IsTextKept given Kind.NoPlacement skeleton.now
        → IfOk result (λ right. IsTrue right ↔ IsBarrierOf to given refusal.now.barrier refusal.now.odd) }
{
    match skeleton {
        Some(skeleton) => {
            let right = is_barrier_in(alloc, skeleton, refusal.barrier.as_slice(), refusal.odd)?;
            Ok(right)
        }
        None => Ok(has_no_barrier(refusal)),
    }
}

/// Whether no barrier is said.
fn has_no_barrier(refusal: &Refusal) -> bool
    ensures { IsTrue result ↔ ((refusal.now.barrier ≡ []) × (refusal.now.odd ≡ 0)) }
{
    refusal.barrier.len() == 0 && refusal.odd == 0
}
