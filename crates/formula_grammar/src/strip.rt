ghost use Rattle.std.specs.Prelude.{◌≡◌, [], ◌∷◌, ◌++◌, true, reverse, IfOk, IfSome, IfNone};
ghost use Rattle.formula_grammar.specs.Machine.{closes, combined, strip};

use crate::stack::{Bind, Frame, Maker, Part};
use edge::NoMemory;

/// Whether an operator that binds so applies the frame before it.
fn closes<V>(bind: Bind, frame: &Frame<V>) -> bool
    ensures { result ≡ closes bind frame.now }
{
    match frame {
        Frame::NotOf | Frame::AndOf(_) => true,
        Frame::OrOf(_) => match bind {
            Bind::Tight => false,
            _ => true,
        },
        Frame::ImpliesOf(_) | Frame::IffOf(_) => match bind {
            Bind::Loose => true,
            _ => false,
        },
        Frame::OpenOf => false,
    }
}

/// What the frame makes of its right side; `NoMemory` for want of it.
fn combine<V: Drop, M: Maker<V>>(maker: &M, frame: Frame<V>, right: V) -> Result<V, NoMemory>
    ensures { IfOk result (λ value. value ≡ combined M.made frame right) }
{
    match frame {
        Frame::NotOf => maker.make(Part::Not(right)),
        Frame::AndOf(left) => maker.make(Part::And(left, right)),
        Frame::OrOf(left) => maker.make(Part::Or(left, right)),
        Frame::ImpliesOf(left) => maker.make(Part::Implies(left, right)),
        Frame::IffOf(left) => maker.make(Part::Iff(left, right)),
        Frame::OpenOf => Ok(right),
    }
}

/// Takes the top frame if the next mark closes it.
fn pop_closed<V: Drop>(stack: &mut Vec<Frame<V>>, bind: Bind) -> Option<Frame<V>>
    ensures popped { IfSome result
        (λ x. (stack.old.items ≡ stack.new.items ++ x ∷ []) × (closes bind x ≡ true)) }
    ensures kept { IfNone result
        ((stack.new.items ≡ stack.old.items)
        × ((made : _) (f : _) → strip made bind f (reverse stack.old.items)
        ≡ (f, reverse stack.old.items))) }
{
    match stack.last() {
        None => None,
        Some(frame) => if closes(bind, frame) {
            stack.pop()
        } else {
            None
        },
    }
}

/// Closes the frames that the next mark closes, and gives the formula that they make.
pub fn strip<V: Drop, M: Maker<V>>(
    maker: &M,
    bind: Bind,
    right: V,
    stack: &mut Vec<Frame<V>>,
) -> Result<V, NoMemory>
    ensures { IfOk result
        (λ f. (f, reverse stack.new.items) ≡ strip M.made bind right (reverse stack.old.items)) }
{
    let mut value = right;
    while let Some(frame) = pop_closed(stack, bind) {
        value = combine(maker, frame, value)?;
    }
    Ok(value)
}
