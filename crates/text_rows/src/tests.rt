//! What texts in memory are read and accepted as where memory is ample.
use formula_grammar::{FormulaStop, read_formula};
use formula_text::write_formula;
use formulas::Atoms;
use report_lines::Kind;
use report_text::accept;
use std::alloc::Global;
use std::test::Fail;

fn one_atom(alloc: Global) -> Result<Atoms, Fail> {
    let mut atoms = Atoms::new(alloc);
    atoms.add("a")?;
    Ok(atoms)
}

/// The canonical text of the formula that a text spells.
fn canonical(alloc: Global, text: &[u8], atoms: &Atoms) -> Result<Vec<u8>, FormulaStop> {
    let formula = read_formula(alloc, text, atoms)?;
    let mut written = Vec::new(alloc);
    write_formula(&formula, atoms, &mut written)?;
    Ok(written)
}

#[test]
fn a_formula_is_read_and_written(rt: HostRuntime) -> Result<(), Fail> {
    let alloc = rt.alloc();
    let atoms = one_atom(alloc)?;
    let written = canonical(alloc, b"a <-> a & a | !a", &atoms)?;
    assert_eq!(rt; written.as_slice(), b"(a <-> ((a & a) | !a))".as_slice());
    let unknown = read_formula(alloc, b"a & d", &atoms).err();
    assert_eq!(rt; unknown, Some(FormulaStop::UnknownAtom));
    Ok(())
}

/// The whole report of one agent against the constraint.
const REPORT: &str = "merge-report 1\ndistance hamming\naggregator sum\nconflicts 100000\n\
    atoms a\nconstraint !a\nagent p : a\nask !a\n\
    model 0\nvector 1\nnearest 1\nmeasure 1\nverdict 1 yes\n\
    main 8 14\nstep 14 claimed 1 -7 8 0 13 -6 8\nstep 15 claimed -3 -7 8 0 14 1 1 2 2\n\
    step 16 claimed -3 5 0 7 4 4 1 1 2 2\n\
    shown far 0 1 14\nshown least 1 15\nshown yes 1 16\nend 0\n";

#[test]
fn a_report_in_memory_is_accepted(rt: HostRuntime) {
    assert_eq!(rt; accept(rt.alloc(), REPORT.as_bytes()), Ok(Kind::Merged));
}
