ghost use Rattle.std.specs.Prelude.{◌≡◌, [], reverse, IfOk};
ghost use Rattle.formula_grammar.specs.Machine.{operand, operator, run, step};
ghost use Rattle.formula_grammar.specs.Turns.{state_of};

use crate::stack::{Bind, Frame, Maker, Part, Turn};
use crate::strip::strip;
use crate::symbol::Symbol;
use edge::NoMemory;
use std::alloc::Global;

/// What comes of a symbol where an operand is due; `NoMemory` for want of it.
fn on_operand<V: Drop, M: Maker<V>>(
    maker: &M,
    symbol: Symbol,
    stack: &mut Vec<Frame<V>>,
) -> Result<Turn<V>, NoMemory>
    ensures { IfOk result
        (λ turn. state_of turn (reverse stack.new.items)
        ≡ step M.made symbol (operand (reverse stack.old.items))) }
{
    let part = match symbol {
        Symbol::Bang => {
            stack.push(Frame::NotOf)?;
            return Ok(Turn::Operand);
        }
        Symbol::Open => {
            stack.push(Frame::OpenOf)?;
            return Ok(Turn::Operand);
        }
        Symbol::True => Part::Top,
        Symbol::False => Part::Bottom,
        Symbol::Name(atom) => Part::Atom(atom),
        _ => return Ok(Turn::Stuck),
    };
    Ok(Turn::Operator(maker.make(part)?))
}

/// What comes of a closing bracket after an operand; `NoMemory` for want of it.
fn on_close<V: Drop, M: Maker<V>>(
    maker: &M,
    value: V,
    stack: &mut Vec<Frame<V>>,
) -> Result<Turn<V>, NoMemory>
    ensures { IfOk result
        (λ turn. state_of turn (reverse stack.new.items)
        ≡ step M.made Symbol.Close (operator value (reverse stack.old.items))) }
{
    let value = strip(maker, Bind::Loose, value, stack)?;
    match stack.pop() {
        Some(Frame::OpenOf) => Ok(Turn::Operator(value)),
        _ => Ok(Turn::Stuck),
    }
}

/// What comes of a symbol after an operand; `NoMemory` for want of it.
fn on_operator<V: Drop, M: Maker<V>>(
    maker: &M,
    symbol: Symbol,
    value: V,
    stack: &mut Vec<Frame<V>>,
) -> Result<Turn<V>, NoMemory>
    ensures { IfOk result
        (λ turn. state_of turn (reverse stack.new.items)
        ≡ step M.made symbol (operator value (reverse stack.old.items))) }
{
    match symbol {
        Symbol::Ampersand => {
            let left = strip(maker, Bind::Tight, value, stack)?;
            stack.push(Frame::AndOf(left))?;
            Ok(Turn::Operand)
        }
        Symbol::Bar => {
            let left = strip(maker, Bind::Middle, value, stack)?;
            stack.push(Frame::OrOf(left))?;
            Ok(Turn::Operand)
        }
        Symbol::Arrow => {
            let left = strip(maker, Bind::Middle, value, stack)?;
            stack.push(Frame::ImpliesOf(left))?;
            Ok(Turn::Operand)
        }
        Symbol::BothArrow => {
            let left = strip(maker, Bind::Loose, value, stack)?;
            stack.push(Frame::IffOf(left))?;
            Ok(Turn::Operand)
        }
        Symbol::Close => on_close(maker, value, stack),
        _ => Ok(Turn::Stuck),
    }
}

/// What the maker makes of the formula that the symbols spell, or `None` where they spell none.
pub fn run<V: Drop, M: Maker<V>>(
    alloc: Global,
    maker: &M,
    symbols: &[Symbol],
) -> Result<Option<V>, NoMemory>
    ensures { IfOk result (λ found. found ≡ run M.made symbols.now (operand [])) }
{
    let mut stack = Vec::new(alloc);
    let mut turn = Turn::Operand;
    for symbol in symbols {
        turn = match turn {
            Turn::Operand => on_operand(maker, *symbol, &mut stack)?,
            Turn::Operator(value) => on_operator(maker, *symbol, value, &mut stack)?,
            Turn::Stuck => return Ok(None),
        };
    }
    match turn {
        Turn::Operator(value) => {
            let value = strip(maker, Bind::Loose, value, &mut stack)?;
            if stack.is_empty() {
                Ok(Some(value))
            } else {
                Ok(None)
            }
        }
        _ => Ok(None),
    }
}
