ghost use Rattle.std.specs.Prelude.{◌≡◌, ◌↔◌, IsTrue, IfOk};
ghost use Rattle.problem_reading.specs.Canonical.{IsWritten};
ghost use Rattle.problem_reading.specs.Fitting.{Fits};
ghost use Rattle.problem_reading.specs.Views.{draft_of};

use crate::declarations::Declarations;
use crate::said::Said;
use edge::NoMemory;
use profile_text::{agent_line, ask_line, atoms_line, constraint_line};

/// Whether a line is this text.
fn is_text(line: &[u8], text: Vec<u8>) -> bool
    ensures { IsTrue result ↔ (line.now ≡ text.items) }
{
    line == text.as_slice()
}

/// Whether a line that says this is written as in a canonical text; `NoMemory` for want of
/// memory.
pub fn is_written(declared: &Declarations, said: &Said, line: &[u8]) -> Result<bool, NoMemory>
    requires { Fits (draft_of declared.now) said.now }
    ensures { IfOk result
        (λ written. IsTrue written ↔ IsWritten (draft_of declared.now) line.now said.now) }
{
    let alloc = declared.alloc;
    let atoms = &declared.atoms;
    match said {
        Said::Nothing => Ok(false),
        Said::Names(names) => Ok(is_text(line, atoms_line(alloc, names, atoms.len())?)),
        Said::Condition(constraint) => {
            Ok(is_text(line, constraint_line(alloc, constraint, atoms)?))
        }
        Said::Belief(agent) => Ok(is_text(line, agent_line(alloc, agent, atoms)?)),
        Said::Query(ask) => Ok(is_text(line, ask_line(alloc, ask, atoms)?)),
    }
}
