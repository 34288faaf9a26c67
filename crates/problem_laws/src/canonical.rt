ghost use Rattle.std.specs.Prelude.{◌≡◌, ◌∷◌, ◌++◌, ℕ, List, All};
ghost use Rattle.formulas.specs.Names.{names_of};
ghost use Rattle.formula_text.specs.CanonicalText.{formula_text};
ghost use Rattle.line_tokens.specs.Lexemes.{lexemes_of};
ghost use Rattle.merge_model.specs.declared.problem.Problem.{Problem};
ghost use Rattle.problem_lines.specs.Forms.{belief, condition, declaration, form_of, query};
ghost use Rattle.problem_lines.specs.Lines.{content_of, lines_of};
ghost use Rattle.profile_text.specs.ProblemText.{agent_line, ask_line, atoms_line, constraint_line};
ghost use Rattle.profile_text.specs.ProblemText.{problem_lines, problem_text};
ghost use Rattle.problem_reading.specs.declared.stop.TextFault.{TextFault};
ghost use Rattle.problem_reading.specs.Lines.{IsCanonicalNext, Spell};
ghost use Rattle.problem_reading.specs.Spelling.{FirstFault, Spelled};
ghost use Rattle.problem_laws.specs.CanonicalOrder.{InOrder, Place};
ghost use Rattle.problem_laws.specs.Sameness.{SameProblem};

use merge_model::Problem;
use problem_reading::Reading;

/// Each line of the canonical text has the form of what it was written for: the atoms, the
/// constraint, each agent with its name and how often it counts, and each query.
pub fn canonical_lines_have_their_forms(problem: &Problem)
    ensures atoms { let names = names_of problem.now.atoms in
        form_of (lexemes_of (atoms_line problem.now.atoms)) ≡ declaration names }
    ensures constraint { let names = names_of problem.now.atoms in
        form_of (lexemes_of (constraint_line names problem.now.constraint))
        ≡ condition (lexemes_of (formula_text names problem.now.constraint)) }
    ensures agents { let names = names_of problem.now.atoms in
        All (λ agent. form_of (lexemes_of (agent_line names agent))
        ≡ belief agent.name agent.times (lexemes_of (formula_text names agent.base)))
        problem.now.agents }
    ensures asks { let names = names_of problem.now.atoms in
        All (λ ask. form_of (lexemes_of (ask_line names ask))
        ≡ query (lexemes_of (formula_text names ask))) problem.now.asks }
{}

/// The canonical text has the lines that it was written for, and no comment stands in them.
pub fn canonical_text_has_its_lines(problem: &Problem)
    ensures lines { lines_of (problem_text problem.now) ≡ problem_lines problem.now }
    ensures contents { All (λ line. content_of line ≡ line) (problem_lines problem.now) }
{}

/// Each line of the canonical text is the canonical next one after those before it.
pub fn canonical_lines_come_next(problem: &Problem)
    ensures { (before rest : List (List ℕ)) (line : List ℕ) →
        problem_lines problem.now ≡ before ++ line ∷ rest → IsCanonicalNext before line }
{}

/// The text that is written for a problem spells it and no other, and has no first fault. So
/// reading that text answers this problem or want of memory.
pub fn canonical_text_spells_its_problem(problem: &Problem)
    ensures spelled { Spelled (problem_text problem.now) problem.now }
    ensures no_other { (read : Problem) → Spelled (problem_text problem.now) read →
        SameProblem read problem.now }
    ensures no_fault { (fault : TextFault) → FirstFault (problem_text problem.now) fault → ⊥ }
{}

/// Lines that are each canonical after those before them, and come in the order of a canonical
/// text, are the lines of the canonical text of the problem that they spell.
pub fn canonical_order(reading: &Reading)
    ensures { (place : Place) (p : Problem) → InOrder place reading.now →
        Spell reading.now p → reading.now ≡ problem_lines p }
{}
