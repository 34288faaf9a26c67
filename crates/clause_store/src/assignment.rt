//! An assignment: a truth value for each variable.
ghost use Rattle.std.specs.Prelude.{◌≡◌, ◌-◌, ◌≤◌, IfOk, false, length, replicate, slice_set};
ghost use Rattle.clause_store.specs.Lits.{InRange};
ghost use Rattle.clause_store.specs.Truth.{all_true, clause_true, values_of};

use crate::clause_list::ClauseList;
use crate::lit::Lit;
use edge::NoMemory;
use std::alloc::Global;
use std::marker::Model;

/// A truth value for each variable from 1 to its size, seen as the list of these values.
#[derive(Drop)]
pub struct Assignment {
    values: Vec<bool>,
}

impl Model for Assignment {
    ghost use Rattle.std.specs.Prelude.{List, Bool};

    ghost Value = { List Bool };

    ghost view = { λ a. a.values.items };
}

impl Assignment {
    /// All false, over the variables from 1 to `vars`; `NoMemory` for want of memory.
    pub fn new(alloc: Global, vars: u32) -> Result<Assignment, NoMemory>
        ensures { IfOk result (λ made. made ≡ replicate vars false) }
    {
        let values = vec![in alloc; false; vars as usize]?;
        Ok(Assignment { values })
    }

    /// The variable's value.
    pub fn value(&self, var: u32) -> bool
        requires some { 1 ≤ var }
        requires within { var ≤ length self.now }
        ensures { result ≡ values_of self.now var }
    {
        self.values[var as usize - 1]
    }

    /// Gives the variable a value.
    pub fn set(&mut self, var: u32, value: bool)
        requires some { 1 ≤ var }
        requires within { var ≤ length self.old }
        ensures { self.new ≡ slice_set self.old (var - 1) value }
    {
        self.values[var as usize - 1] = value;
    }

    /// Whether each clause has a true literal.
    pub fn satisfies(&self, clauses: &ClauseList) -> bool
        requires { clauses.now.vars ≤ length self.now }
        ensures { result ≡ all_true (values_of self.now) clauses.now.list }
    {
        let mut number = 0;
        while number < clauses.len() {
            if !self.has_true(clauses.clause(number)) {
                return false;
            }
            number += 1;
        }
        true
    }

    /// Whether one of the literals is true.
    fn has_true(&self, lits: &[Lit]) -> bool
        requires { InRange (length self.now) lits.now }
        ensures { result ≡ clause_true (values_of self.now) lits.now }
    {
        for lit in lits {
            if self.value(lit.var) == lit.positive {
                return true;
            }
        }
        false
    }
}
