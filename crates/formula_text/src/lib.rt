//! Writes formulas in their canonical text.
#![tactic(auto)]

ghost use Rattle.std.specs.Prelude.{◌≤◌, ◌++◌, codes, length};
ghost use Rattle.formulas.specs.Formulas.{width_of};
ghost use Rattle.formulas.specs.Names.{names_of};
ghost use Rattle.report_words.specs.Writing.{Writes};
ghost use Rattle.formula_text.specs.CanonicalText.{formula_text, joined_text};

mod valuations;

use edge::NoMemory;
use formulas::{Atoms, Formula};
use report_words::write_bytes;
pub use valuations::{write_valuation, write_valuations};

/// Appends the canonical text of a formula whose atoms are all there; on `NoMemory` what was
/// appended is a part of it from its start.
#[cycle(writing)]
pub fn write_formula(formula: &Formula, atoms: &Atoms, into: &mut Vec<u8>) -> Result<(), NoMemory>
    requires { width_of formula.now ≤ length atoms.now }
    ensures { Writes result into.old.items into.new.items
        (formula_text (names_of atoms.now) formula.now) }
{
    match formula {
        Formula::Top => write_bytes(b"true", into),
        Formula::Bottom => write_bytes(b"false", into),
        Formula::Atom(atom) => write_bytes(atoms.name(*atom).as_bytes(), into),
        Formula::Not(child) => write_negated(child.get(), atoms, into),
        Formula::And(left, right) => write_joined(left.get(), b" & ", right.get(), atoms, into),
        Formula::Or(left, right) => write_joined(left.get(), b" | ", right.get(), atoms, into),
        Formula::Implies(left, right) => write_joined(
            left.get(),
            b" -> ",
            right.get(),
            atoms,
            into,
        ),
        Formula::Iff(left, right) => write_joined(left.get(), b" <-> ", right.get(), atoms, into),
    }
}

/// Appends a formula behind the sign of negation.
#[cycle(writing)]
fn write_negated(child: &Formula, atoms: &Atoms, into: &mut Vec<u8>) -> Result<(), NoMemory>
    requires { width_of child.now ≤ length atoms.now }
    ensures { Writes result into.old.items into.new.items
        (codes "!" ++ formula_text (names_of atoms.now) child.now) }
{
    write_bytes(b"!", into)?;
    write_formula(child, atoms, into)
}

/// Appends two formulas with a connective between them, in brackets.
#[cycle(writing)]
fn write_joined(
    left: &Formula,
    mark: &[u8],
    right: &Formula,
    atoms: &Atoms,
    into: &mut Vec<u8>,
) -> Result<(), NoMemory>
    requires left { width_of left.now ≤ length atoms.now }
    requires right { width_of right.now ≤ length atoms.now }
    ensures { let names = names_of atoms.now in
        Writes result into.old.items into.new.items
        (joined_text (formula_text names left.now) mark.now (formula_text names right.now)) }
{
    write_bytes(b"(", into)?;
    write_formula(left, atoms, into)?;
    write_bytes(mark, into)?;
    write_formula(right, atoms, into)?;
    write_bytes(b")", into)
}
