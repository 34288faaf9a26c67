//! Lists of watches, one for each literal. A watch goes by its slot, two a clause side by side;
//! what a visit reads of it stands at its seat, and the watches of one list can have seats side by
//! side.
ghost use Rattle.std.specs.Prelude.{◌≡◌, ℕ, ◌*◌, ◌+◌, ◌<◌, ◌≤◌, List, ◌∷◌, length, true};
ghost use Rattle.std.specs.Prelude.{false, slice_index_or, slice_set, Contains, All};
ghost use Rattle.std.specs.Prelude.{IfOk, OnOk, OnErr};
ghost use Rattle.clause_store.specs.Limits.{var_limit};
ghost use Rattle.watch_lists.specs.Chains.{AreChains, Chain, list_at, IsApart, list_end};
ghost use Rattle.watch_lists.specs.Watches.{lit_at, mate, place_of};
ghost use Rattle.watch_lists.specs.Seats.{slot_at, AreNone, IsBlank, IsGrown, IsSized};

use crate::packed::{pack, unpack};
use crate::seating::{arrange, empty};
use clause_store::{ClauseList, Lit};
use edge::NoMemory;
use std::alloc::Global;
use std::marker::Model;

/// What ends a list; `list_end` of the specs.
pub const END: u32 = u32::MAX;

/// What a visit reads of a watch.
#[derive(Clone, Copy, Debug, Default)]
pub struct Watch {
    /// The seat of the next watch of the list.
    pub next: u32,
    /// The other watched literal of the clause, as `pack` gives it.
    pub other: u32,
}

/// The lists of watches.
#[derive(Drop)]
pub struct Lists {
    /// By rank of a literal: the seat of the first watch of its list.
    heads: Vec<u32>,
    /// By seat.
    row: Vec<Watch>,
    /// By slot: its seat.
    seats: Vec<u32>,
    /// By seat: its slot.
    slots: Vec<u32>,
}

impl Model for Lists {
    ghost use Rattle.watch_lists.specs.Seats.{Seated, AreSeated, heads_of, next_of, others_of};

    ghost Value = { Seated };

    ghost view = { λ l. record {
      heads = heads_of l.slots.items l.heads.items;
      next = next_of l.slots.items l.seats.items l.row.items;
      watched = others_of l.seats.items l.row.items;
      slots = l.slots.items;
    } };

    ghost invariant = { λ l. AreSeated l.heads.items l.row.items l.seats.items l.slots.items };
}

impl Lists {
    /// No watches, and room for the literals of so many variables.
    pub fn new(alloc: Global, count: u32) -> Result<Lists, NoMemory>
        ensures { IfOk result (IsBlank count) }
    {
        let heads = vec![in alloc; END; 2 * count as usize + 2]?;
        Ok(Lists {
            heads,
            row: Vec::new(alloc),
            seats: Vec::new(alloc),
            slots: Vec::new(alloc),
        })
    }

    /// Takes in the two watches of one more clause.
    pub fn grow(&mut self) -> Result<(), NoMemory>
        requires few { length self.old.next + 2 < list_end }
        ensures ok { OnOk result (IsGrown self.old self.new) }
        ensures err { OnErr result (self.new ≡ self.old) }
    {
        self.row.reserve(2)?;
        self.seats.reserve(2)?;
        self.slots.reserve(2)?;
        let slot = self.slots.len() as u32;
        let none = Watch {
            next: END,
            other: 0,
        };
        self.row.push(none)?;
        self.row.push(none)?;
        self.seats.push(slot)?;
        self.seats.push(slot + 1)?;
        self.slots.push(slot)?;
        self.slots.push(slot + 1)?;
        Ok(())
    }

    /// How many watches there are.
    pub fn len(&self) -> usize
        ensures len { result ≡ length self.now.next }
        ensures few { result < list_end }
    {
        self.seats.len()
    }

    /// Whether a list ends here.
    #[inline]
    pub fn is_end(&self, seat: u32) -> bool
        ensures end { result ≡ true → slot_at self.now.slots seat ≡ list_end }
        ensures seat { result ≡ false → seat < length self.now.next }
        ensures slot { result ≡ false → slot_at self.now.slots seat < length self.now.next }
    {
        seat as usize >= self.slots.len()
    }

    /// The seat of a watch.
    #[inline]
    pub fn seat(&self, slot: usize) -> u32
        requires { slot < length self.now.next }
        ensures slot { slot_at self.now.slots result ≡ slot }
        ensures within { result < length self.now.next }
    {
        self.seats[slot]
    }

    /// The place of the clause that is watched from a seat.
    #[inline]
    pub fn place(&self, seat: u32) -> usize
        requires { seat < length self.now.next }
        ensures { result ≡ place_of (slot_at self.now.slots seat) }
    {
        self.slots[seat as usize] as usize / 2
    }

    /// The other watched literal of the clause that is watched from a seat.
    #[inline]
    pub fn other(&self, seat: u32) -> Lit
        requires { seat < length self.now.next }
        ensures { result ≡ lit_at self.now.watched (mate (slot_at self.now.slots seat)) }
    {
        unpack(self.row[seat as usize].other)
    }

    /// The seat of the next watch of the list.
    #[inline]
    pub fn after(&self, seat: u32) -> u32
        requires { seat < length self.now.next }
        ensures { slot_at self.now.slots result ≡
            slice_index_or self.now.next (slot_at self.now.slots seat) 0 }
    {
        self.row[seat as usize].next
    }

    /// Detaches a list, and answers the seat of its first watch.
    #[inline]
    pub fn take(&mut self, at: usize) -> u32
        requires { at < length self.old.heads }
        ensures first { slot_at self.old.slots result ≡ slice_index_or self.old.heads at 0 }
        ensures after { self.new ≡
            record self.old { heads = slice_set self.old.heads at list_end } }
    {
        let seat = self.heads[at];
        self.heads[at] = END;
        seat
    }

    /// Puts a watch that is in no list in front of one.
    #[inline]
    pub fn push(&mut self, at: usize, seat: u32)
        requires at { at < length self.old.heads }
        requires seat { seat < length self.old.next }
        ensures chains { (lists : List (List ℕ)) → AreChains self.old.heads self.old.next lists →
            IsApart (slot_at self.old.slots seat) lists → AreChains self.new.heads self.new.next
            (slice_set lists at (slot_at self.old.slots seat ∷ list_at lists at)) }
        ensures loose { (first : ℕ) (slots : List ℕ) → Chain self.old.next first slots →
            (Contains slots (slot_at self.old.slots seat) → ⊥) → Chain self.new.next first slots }
        ensures watched { self.new.watched ≡ self.old.watched }
        ensures slots { self.new.slots ≡ self.old.slots }
        ensures sized { IsSized self.old self.new }
    {
        let seat_after = self.heads[at];
        self.row[seat as usize].next = seat_after;
        self.heads[at] = seat;
    }

    /// Gives a watch another literal.
    pub fn change(&mut self, seat: u32, lit: Lit)
        requires seat { seat < length self.old.next }
        requires named { 1 ≤ lit.var }
        requires few { lit.var ≤ var_limit }
        ensures changed { lit_at self.new.watched (slot_at self.old.slots seat) ≡ lit }
        ensures others { (t : ℕ) → (t ≡ slot_at self.old.slots seat → ⊥) →
            lit_at self.new.watched t ≡ lit_at self.old.watched t }
        ensures heads { self.new.heads ≡ self.old.heads }
        ensures next { self.new.next ≡ self.old.next }
        ensures slots { self.new.slots ≡ self.old.slots }
        ensures sized { IsSized self.old self.new }
    {
        let slot = self.slots[seat as usize];
        let mate_seat = self.seats[(slot + 1 - slot % 2 * 2) as usize];
        self.row[mate_seat as usize].other = pack(lit);
    }

    /// Empties all lists.
    pub fn clear(&mut self)
        ensures none { AreNone self.new.heads }
        ensures next { self.new.next ≡ self.old.next }
        ensures watched { self.new.watched ≡ self.old.watched }
        ensures sized { IsSized self.old self.new }
    {
        empty(&mut self.heads, END);
    }

    /// Empties all lists, and gives the watches that will stand in one list seats side by side.
    pub fn arrange(&mut self, numbers: &[u64], known: &ClauseList)
        requires heads { length self.old.heads ≡ 2 * known.now.vars + 2 }
        requires all { length self.old.next ≡ 2 * length numbers.now }
        requires numbers { All (λ n. n < length known.now.list) numbers.now }
        ensures none { AreNone self.new.heads }
        ensures sized { IsSized self.old self.new }
    {
        arrange(
            &mut self.heads,
            &mut self.seats,
            &mut self.slots,
            numbers,
            known,
        );
    }
}
