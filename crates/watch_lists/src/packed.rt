//! Literals in 32 bits.
ghost use Rattle.std.specs.Prelude.{◌≡◌, ◌≤◌};
ghost use Rattle.clause_store.specs.Limits.{var_limit};
ghost use Rattle.watch_lists.specs.Watches.{lit_of};

use clause_store::Lit;

/// The number that stands for a literal.
pub fn pack(lit: Lit) -> u32
    requires named { 1 ≤ lit.var }
    requires few { lit.var ≤ var_limit }
    ensures { lit_of result ≡ lit }
{
    if lit.positive {
        2 * (lit.var - 1)
    } else {
        2 * (lit.var - 1) + 1
    }
}

/// The literal that a number stands for.
#[inline]
pub fn unpack(bits: u32) -> Lit
    ensures { result ≡ lit_of bits }
{
    Lit {
        var: bits / 2 + 1,
        positive: bits % 2 == 0,
    }
}
