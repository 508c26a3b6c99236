ghost use Rattle.std.specs.Prelude.{◌≡◌, ◌++◌, [], ◌+◌, ◌-◌, ◌^◌, ◌<◌, ◌≤◌, ℕ, List, All, IfOk, OnOk, OnErr, codes, decimal};
ghost use Rattle.mc_base.specs.declared.ids.AtomId.{AtomId as Atom};
ghost use Rattle.mc_base.specs.declared.refusal.Refusal.{Refusal as RefusalValue};
ghost use Rattle.mc_report.specs.Report.{IsOneLine, numbers, later_numbers, ok_line, reason, refused_line};

use mc_base::{AtomId, Kind, NoMemory, Refusal, Text};
use mc_digits::put_number;
use std::alloc::Global;

/// An empty line with room for a list of so many atoms, as most are, and for what stands around it.
fn empty_line(alloc: Global, atoms: usize) -> Result<Text, NoMemory>
    ensures { IfOk result (λ line. line ≡ []) }
{
    let bytes = Vec::with_capacity(alloc, atoms.saturating_mul(4).saturating_add(64))?;
    Ok(Text::from_vec(bytes))
}

/// Adds a line, whole or not at all. It is handed on where nothing stands before it.
fn put_line(out: &mut Text, line: Text) -> Result<(), NoMemory>
    ensures ok { OnOk result (out.new ≡ out.old ++ line) }
    ensures err { OnErr result (out.new ≡ out.old) }
{
    if out.len() == 0 {
        *out = line;
        return Ok(());
    }
    out.extend(line.as_slice())
}

#[inline]
fn push_atom(text: &mut Text, atom: AtomId) -> Result<(), NoMemory>
    ensures { OnOk result (text.new ≡ text.old ++ decimal (atom.0 + 1)) }
{
    put_number(text, atom.0 as u64 + 1)
}

#[inline]
fn push_later(text: &mut Text, atom: AtomId) -> Result<(), NoMemory>
    ensures { OnOk result (text.new ≡ text.old ++ codes "," ++ decimal (atom.0 + 1)) }
{
    text.push(b',')?;
    push_atom(text, atom)
}

/// Atoms counted from 1, parted by commas.
fn push_numbers(text: &mut Text, atoms: &[AtomId]) -> Result<(), NoMemory>
    ensures { OnOk result (text.new ≡ text.old ++ numbers atoms.now) }
{
    if let Some((first, others)) = atoms.split_first() {
        push_atom(text, *first)?;
        for atom in others {
            push_later(text, *atom)?;
        }
    }
    Ok(())
}

fn ok_line(
    alloc: Global,
    k: u64,
    map: &[AtomId],
    idle: u32,
    ring: u32,
    lines: u32,
) -> Result<Text, NoMemory>
    ensures { IfOk result (λ text. text ≡ ok_line k map.now idle ring lines) }
{
    let mut text = empty_line(alloc, map.len())?;
    put_number(&mut text, k)?;
    text.extend(b" ok map=")?;
    push_numbers(&mut text, map)?;
    text.extend(b" idle=")?;
    put_number(&mut text, idle as u64)?;
    text.extend(b" ring=")?;
    put_number(&mut text, ring as u64)?;
    text.extend(b" data=")?;
    put_number(&mut text, lines as u64)?;
    text.push(b'\n')?;
    Ok(text)
}

/// Adds the line of record k, which is written: entry k of the map is the read atom of written atom k.
/// `idle`, `ring` and `lines` count what the target can't hold.
pub fn put_ok(
    alloc: Global,
    out: &mut Text,
    k: u64,
    map: &[AtomId],
    idle: u32,
    ring: u32,
    lines: u32,
) -> Result<(), NoMemory>
    requires number { 1 ≤ k }
    requires atoms { All (λ atom. atom.0 < 2 ^ 32 - 1) map.now }
    ensures ok { OnOk result (out.new ≡ out.old ++ ok_line k map.now idle ring lines) }
    ensures err { OnErr result (out.new ≡ out.old) }
{
    let line = ok_line(alloc, k, map, idle, ring, lines)?;
    put_line(out, line)
}

/// What is said of a refusal beside its kind.
fn push_reason(text: &mut Text, refusal: &Refusal) -> Result<(), NoMemory>
    ensures { OnOk result (text.new ≡ text.old ++ reason refusal.now.kind refusal.now.place refusal.now.barrier refusal.now.odd) }
{
    match refusal.kind {
        Kind::NoPlacement => {
            text.extend(b" barrier=")?;
            push_numbers(text, refusal.barrier.as_slice())?;
            text.extend(b" odd=")?;
            put_number(text, refusal.odd as u64)
        }
        _ => {
            text.extend(b" place=")?;
            put_number(text, refusal.place as u64)
        }
    }
}

fn refused_line(alloc: Global, k: u64, refusal: &Refusal) -> Result<Text, NoMemory>
    ensures { IfOk result (λ text. text ≡ refused_line k refusal.now) }
{
    let mut text = empty_line(alloc, refusal.barrier.len())?;
    put_number(&mut text, k)?;
    text.extend(b" refused ")?;
    text.extend(refusal.kind.name())?;
    push_reason(&mut text, refusal)?;
    text.push(b'\n')?;
    Ok(text)
}

/// Adds the line of record k, which is refused.
pub fn put_refused(alloc: Global, out: &mut Text, k: u64, refusal: &Refusal) -> Result<(), NoMemory>
    requires number { 1 ≤ k }
    ensures ok { OnOk result (out.new ≡ out.old ++ refused_line k refusal.now) }
    ensures err { OnErr result (out.new ≡ out.old) }
{
    let line = refused_line(alloc, k, refusal)?;
    put_line(out, line)
}

/// What is put for a record is one line, whatever it says.
#[tactic(auto, using(crate::proofs::OneLine::ok_one_line, crate::proofs::OneLine::refused_one_line))]
pub fn one_line_law()
    ensures ok { (k idle ring lines : ℕ) (map : List Atom) → IsOneLine (ok_line k map idle ring lines) }
    ensures refused { (k : ℕ) (refusal : RefusalValue) → IsOneLine (refused_line k refusal) }
{}
