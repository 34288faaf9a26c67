ghost use Rattle.std.specs.Prelude.{◌≡◌, ◌+◌, ◌≤◌, ℕ, IfOk, IfErr, true, min, nat_lt, map};
ghost use Rattle.std.specs.List.{list_all};
ghost use Rattle.formulas.specs.Limits.{node_limit, times_limit};
ghost use Rattle.line_tokens.specs.Lexemes.{lexeme_of};
ghost use Rattle.problem_lines.specs.Forms.{Form, condition, belief, query, declaration};
ghost use Rattle.problem_lines.specs.Forms.{is_name_token, words_of};
ghost use Rattle.problem_lines.specs.Numerals.{times_cap};
ghost use Rattle.problem_lines.specs.Views.{IsForm};
ghost use Rattle.problem_reading.specs.Drafts.{size_of, believes_too_much};
ghost use Rattle.problem_reading.specs.Faults.{is_agent};
ghost use Rattle.problem_reading.specs.Saying.{IsSaid, Says};
ghost use Rattle.problem_reading.specs.Stops.{IsFormStop, IsLineStop};
ghost use Rattle.problem_reading.specs.Views.{draft_of};

use crate::declarations::Declarations;
use crate::formula::{OtherFaults, line_formula};
use crate::names::{any_declared, any_long, any_reserved, are_distinct, extended};
use crate::said::Said;
use crate::stop::{LineStop, TextKind};
use edge::NoMemory;
use formula_grammar::node_count;
use formulas::{
    AGENT_LIMIT, ASK_LIMIT, ATOM_LIMIT, Atoms, Formula, NAME_LIMIT, NODE_LIMIT, TIMES_LIMIT,
    is_reserved,
};
use line_tokens::{Token, tokens};
use merge_model::{Agent, Sequence};
use problem_lines::{LineForm, content, form_of};
use std::alloc::Global;

/// Whether a formula of these tokens has too many nodes beside those that are there.
fn is_over(tokens: &[Token], used: u64) -> bool
    requires few { used ≤ node_limit }
    ensures { result ≡ nat_lt node_limit (used + size_of (map lexeme_of tokens.now)) }
{
    node_count(tokens) as u64 > NODE_LIMIT - used
}

/// The constraint that a line's tokens spell, or the line's least fault.
pub fn judge_condition(declared: &Declarations, tokens: &[Token]) -> Result<Formula, LineStop>
    ensures said { IfOk result
        (λ f. IsSaid (draft_of declared.now) (condition (map lexeme_of tokens.now))
        (Said.Condition f)) }
    ensures stop { IfErr result
        (IsFormStop (draft_of declared.now) (condition (map lexeme_of tokens.now))) }
{
    let other = OtherFaults {
        reserved: false,
        twice: declared.constraint.is_some(),
        over: is_over(tokens, declared.other_nodes),
    };
    line_formula(declared.alloc, tokens, &declared.atoms, other)
}

/// The query that a line's tokens spell, or the line's least fault.
pub fn judge_query(declared: &Declarations, tokens: &[Token]) -> Result<Formula, LineStop>
    ensures said { IfOk result
        (λ f. IsSaid (draft_of declared.now) (query (map lexeme_of tokens.now)) (Said.Query f)) }
    ensures stop { IfErr result
        (IsFormStop (draft_of declared.now) (query (map lexeme_of tokens.now))) }
{
    let over = declared.asks.len() >= ASK_LIMIT
        || is_over(tokens, declared.constraint_nodes + declared.other_nodes);
    let other = OtherFaults {
        reserved: false,
        twice: false,
        over,
    };
    line_formula(declared.alloc, tokens, &declared.atoms, other)
}

/// Whether an agent of this name is there.
fn is_agent(declared: &Declarations, name: &str) -> bool
    ensures { result ≡ is_agent (draft_of declared.now) name.now }
{
    declared
        .agents
        .iter()
        .any(|agent| name.as_bytes() == agent.name.as_slice())
}

/// Whether agents that count so often count too often together with one more, whose times are
/// counted up to one more than the most.
fn is_too_often(used: u32, times: u32) -> bool
    requires few { used ≤ times_limit }
    requires capped { times ≤ times_cap }
    ensures { (n : ℕ) → times ≡ min n times_cap → result ≡ nat_lt times_limit (used + n) }
{
    used + times > TIMES_LIMIT
}

/// Whether one more agent passes a limit.
fn believes_too_much(declared: &Declarations, name: &str, times: u32, tokens: &[Token]) -> bool
    requires capped { times ≤ times_cap }
    ensures { (n : ℕ) → times ≡ min n times_cap →
        result ≡ believes_too_much (draft_of declared.now) name.now n (map lexeme_of tokens.now) }
{
    let over = is_over(tokens, declared.constraint_nodes + declared.other_nodes);
    let often = is_too_often(declared.times, times);
    declared.agents.len() >= AGENT_LIMIT || name.len() > NAME_LIMIT || often || over
}

/// The bytes of a name.
fn copied(alloc: Global, name: &str) -> Result<Sequence<u8>, NoMemory>
    ensures { IfOk result (λ bytes. bytes ≡ name.now) }
{
    Ok(Sequence::from_vec(name.as_bytes().to_vec(alloc)?))
}

/// The agent that a line's tokens declare, or the line's least fault.
pub fn judge_belief(
    declared: &Declarations,
    name: &str,
    times: u32,
    tokens: &[Token],
) -> Result<Agent, LineStop>
    requires capped { times ≤ times_cap }
    ensures said { (n : ℕ) → times ≡ min n times_cap →
        IfOk result (λ agent. IsSaid (draft_of declared.now)
        (belief name.now n (map lexeme_of tokens.now)) (Said.Belief agent)) }
    ensures stop { (n : ℕ) → times ≡ min n times_cap →
        IfErr result (IsFormStop (draft_of declared.now)
        (belief name.now n (map lexeme_of tokens.now))) }
{
    let other = OtherFaults {
        reserved: is_reserved(name.as_bytes()),
        twice: is_agent(declared, name),
        over: believes_too_much(declared, name, times, tokens),
    };
    let base = line_formula(declared.alloc, tokens, &declared.atoms, other)?;
    let name = copied(declared.alloc, name)?;
    Ok(Agent { name, times, base })
}

/// The atoms with those that a line's tokens declare, or the line's least fault.
pub fn judge_names(declared: &Declarations, tokens: &[Token]) -> Result<Atoms, LineStop>
    requires names { list_all is_name_token (map lexeme_of tokens.now) ≡ true }
    ensures said { IfOk result
        (λ atoms. IsSaid (draft_of declared.now) (declaration (words_of (map lexeme_of tokens.now)))
        (Said.Names atoms)) }
    ensures stop { IfErr result
        (IsFormStop (draft_of declared.now) (declaration (words_of (map lexeme_of tokens.now)))) }
{
    if any_reserved(tokens) {
        return Err(LineStop::Fault(TextKind::Reserved));
    }
    if !are_distinct(declared.alloc, tokens)? {
        return Err(LineStop::Fault(TextKind::Twice));
    }
    if any_declared(&declared.atoms, tokens) {
        return Err(LineStop::Fault(TextKind::Twice));
    }
    if tokens.len() > (ATOM_LIMIT - declared.atoms.len()) as usize {
        return Err(LineStop::Fault(TextKind::TooMany));
    }
    if any_long(tokens) {
        return Err(LineStop::Fault(TextKind::TooMany));
    }
    Ok(extended(declared.alloc, &declared.atoms, tokens)?)
}

/// What a line of this form says, or its least fault.
fn judge_form(declared: &Declarations, form: LineForm) -> Result<Said, LineStop>
    requires { (f : Form) × IsForm form f }
    ensures said { (f : Form) → IsForm form.entry f →
        IfOk result (IsSaid (draft_of declared.now) f) }
    ensures stop { (f : Form) → IsForm form.entry f →
        IfErr result (IsFormStop (draft_of declared.now) f) }
{
    match form {
        LineForm::Blank => Ok(Said::Nothing),
        LineForm::Atoms(names) => {
            let atoms = judge_names(declared, names)?;
            Ok(Said::Names(atoms))
        }
        LineForm::Constraint(tokens) => {
            let constraint = judge_condition(declared, tokens)?;
            Ok(Said::Condition(constraint))
        }
        LineForm::Agent { name, times, base } => {
            let agent = judge_belief(declared, name, times, base)?;
            Ok(Said::Belief(agent))
        }
        LineForm::Ask(tokens) => {
            let ask = judge_query(declared, tokens)?;
            Ok(Said::Query(ask))
        }
        LineForm::Unknown => Err(LineStop::Fault(TextKind::BadLine)),
    }
}

/// What a line says after what was read, or its least fault; `NoMemory` for want of memory.
pub fn judge(declared: &Declarations, line: &[u8]) -> Result<Said, LineStop>
    ensures said { IfOk result (Says (draft_of declared.now) line.now) }
    ensures stop { IfErr result (IsLineStop (draft_of declared.now) line.now) }
{
    match tokens(declared.alloc, content(line))? {
        None => Err(LineStop::Fault(TextKind::BadByte)),
        Some(tokens) => judge_form(declared, form_of(&tokens)),
    }
}
