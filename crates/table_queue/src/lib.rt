// A queue that keeps its elements in the first places of a table of the caller's.
#![tactic(auto)]

ghost use Rattle.std.specs.Prelude.{◌≡◌, ℕ, ◌+◌, ◌-◌, ◌<◌, ◌≤◌, ◌≢◌, false, List, Option, [], ◌++◌, length, take, Some, IfNone, OnErr, OnOk, OnSome, slice_set};
ghost use Rattle.queue.specs.Held.{head, first, place, any, is, insert, remove, change, numbered, barred, uncut, answer, after_put, after_cut, after_take};
ghost use Rattle.queue.specs.Through.{SameElements};
ghost use Rattle.table_queue.specs.Arranged.{held_in, Lawful, Stands, Arranges};

use queue::search::{can_cut, clashes, find, is_taken, place_of};
use queue::{Queue, Ranked};
use std::marker::PhantomData;
use terms::refusal::Refusal;

// How elements stand in a table's first places: which of them comes next in rank, and how one comes in and goes out.
pub trait Arrangement<E: Ranked> {
    // The elements of the first places, in rank order.
    ghost order: { List E → List E };

    // What the first places keep.
    ghost Kept: { List E → Type 0 };

    // The number of elements, an element, and the table before and after it is put in.
    ghost Puts: { ℕ → E → List E → List E → Type 0 };

    // The number of elements, a place, and the table before and after the element there is taken out.
    ghost Takes: { ℕ → ℕ → List E → List E → Type 0 };

    // Lots, an element, its place, the number of elements, and the table before and after the lots are cut off it.
    ghost Cuts: { ℕ → Option E → ℕ → ℕ → List E → List E → Type 0 };

    // The first in rank of the elements that `e` ranks before.
    fn first_after(elements: &[E], e: &E) -> Option<E>
        ensures { Stands E.Ranked.rank order Kept elements.now → result ≡ first (E.Ranked.rank.before e.now) (order elements.now) };

    // The last of `elements` is a free place. Puts `e` in beside the others.
    // If its key is new, it comes to stand where it ranks. What stands behind in a table stays.
    fn insert(elements: &mut [E], e: E)
        ensures puts { 0 < length elements.old → (behind : List E) → Puts (length elements.old - 1) e (elements.old ++ behind) (elements.new ++ behind) }
        ensures arranges { 0 < length elements.old → Stands E.Ranked.rank order Kept (take (length elements.old - 1) elements.old) → any (is E.Ranked.rank.key (E.Ranked.rank.key e)) (take (length elements.old - 1) elements.old) ≡ false → Arranges order Kept elements.new (insert E.Ranked.rank.before e (order (take (length elements.old - 1) elements.old))) };

    // Takes the element at `at` out of `elements`, if it is there. The others stand as they did, before the last place.
    // What stands behind in a table stays.
    fn remove_at(elements: &mut [E], at: usize)
        ensures takes { at < length elements.old → (behind : List E) → Takes (length elements.old) at (elements.old ++ behind) (elements.new ++ behind) }
        ensures arranges { at < length elements.old → (number : ℕ) → at ≡ place (is E.Ranked.rank.number number) elements.old → Stands E.Ranked.rank order Kept elements.old → Arranges order Kept (take (length elements.old - 1) elements.new) (remove (is E.Ranked.rank.number number) (order elements.old)) }
        ensures outside { length elements.old ≤ at → elements.new ≡ elements.old };

    // In rank order the elements are the same.
    ghost same: { (xs : List E) → SameElements xs (order xs) };

    // No elements stand in any arrangement.
    ghost none: { Kept [] };

    // The first in rank stands in the first place.
    ghost heads: { (xs : List E) → Kept xs → head xs ≡ head (order xs) };

    // With other lots an element stands where it stood.
    ghost relotted: { (number m : ℕ) (xs : List E) → Stands E.Ranked.rank order Kept xs → Arranges order Kept (change (is E.Ranked.rank.number number) (λ x. E.Ranked.rank.with_lots x m) xs) (change (is E.Ranked.rank.number number) (λ x. E.Ranked.rank.with_lots x m) (order xs)) };

    // A cut of all lots takes the element out.
    ghost cut_all: { (e : E) (n i : ℕ) (t u : List E) → Takes n i t u → Cuts (E.Ranked.rank.lots e) (Some e) i n t u };

    // A cut of fewer leaves it with the rest.
    ghost cut_some: { (lots n i : ℕ) (e : E) (t : List E) → i < n → (E.Ranked.rank.lots e ≢ lots) → Cuts lots (Some e) i n t (slice_set t i (E.Ranked.rank.with_lots e (E.Ranked.rank.lots e - lots))) };
}

// The elements stand in the first `count` places, in the arrangement `A`.
// The table is lent, since no memory is allocated: so the count stands beside it.
#[derive(Drop)]
pub struct TableQueue<'a, E: Ranked, A: Arrangement<E>> {
    table: &'a mut [E],
    count: usize,
    arrangement: PhantomData<A>,
    ghost within: { count ≤ length table.now },
}

impl<'a, E: Ranked, A: Arrangement<E>> TableQueue<'a, E, A> {
    // An empty queue over a lent table, which stays as it is.
    pub fn new(table: &'a mut [E]) -> Self
        ensures empty { result.count ≡ 0 }
        ensures holds { held_in A.Arrangement.order result.count result.table.now ≡ record { capacity = length table.old; elements = [] } }
        ensures table { result.table.now ≡ table.old }
    {
        TableQueue {
            table,
            count: 0,
            arrangement: PhantomData,
        }
    }

    // The elements, as they stand.
    fn elements(&self) -> &[E]
        ensures { result.now ≡ take self.now.count self.now.table.now }
    {
        &self.table[..self.count]
    }
}

impl<'a, E: Ranked, A: Arrangement<E>> Queue<E> for TableQueue<'a, E, A> {
    // What it holds is sound, and its elements stand as they should.
    ghost lawful = { λ s. Lawful E.Ranked.rank A.Arrangement.order A.Arrangement.Kept s.count s.table.now };

    ghost held = { λ s. held_in A.Arrangement.order s.count s.table.now };

    fn count(&self) -> usize {
        self.count
    }

    fn capacity(&self) -> usize {
        self.table.len()
    }

    fn first(&self) -> Option<E> {
        self.elements().first().copied()
    }

    fn first_after(&self, e: &E) -> Option<E> {
        A::first_after(self.elements(), e)
    }

    fn find(&self, number: u32) -> Option<E> {
        find(self.elements(), number)
    }

    fn is_taken(&self, value: u32, except: Option<u32>) -> bool {
        is_taken(self.elements(), value, except)
    }

    fn put(&mut self, e: E) -> Result<(), Refusal>
        ensures answers { Lawful E.Ranked.rank A.Arrangement.order A.Arrangement.Kept self.old.count self.old.table.now → result ≡ answer (barred E.Ranked.rank (held_in A.Arrangement.order self.old.count self.old.table.now) e) }
        ensures leaves { Lawful E.Ranked.rank A.Arrangement.order A.Arrangement.Kept self.old.count self.old.table.now → held_in A.Arrangement.order self.new.count self.new.table.now ≡ after_put E.Ranked.rank (held_in A.Arrangement.order self.old.count self.old.table.now) e }
        ensures keeps { Lawful E.Ranked.rank A.Arrangement.order A.Arrangement.Kept self.old.count self.old.table.now → Lawful E.Ranked.rank A.Arrangement.order A.Arrangement.Kept self.new.count self.new.table.now }
        ensures refused { OnErr result (self.new ≡ self.old) }
        ensures table { OnOk result (A.Arrangement.Puts self.old.count e self.old.table.now self.new.table.now) }
    {
        if self.count >= self.table.len() {
            return Err(Refusal::QueueFull);
        }
        if e.lots() == 0 || clashes(self.elements(), &e) {
            return Err(Refusal::AlreadyHeld);
        }
        A::insert(&mut self.table[..=self.count], e);
        self.count += 1;
        Ok(())
    }

    fn cut(&mut self, number: u32, lots: u32) -> Result<(), Refusal>
        ensures answers { Lawful E.Ranked.rank A.Arrangement.order A.Arrangement.Kept self.old.count self.old.table.now → result ≡ answer (uncut E.Ranked.rank lots (numbered E.Ranked.rank (held_in A.Arrangement.order self.old.count self.old.table.now) number)) }
        ensures leaves { Lawful E.Ranked.rank A.Arrangement.order A.Arrangement.Kept self.old.count self.old.table.now → held_in A.Arrangement.order self.new.count self.new.table.now ≡ after_cut E.Ranked.rank (held_in A.Arrangement.order self.old.count self.old.table.now) number lots }
        ensures keeps { Lawful E.Ranked.rank A.Arrangement.order A.Arrangement.Kept self.old.count self.old.table.now → Lawful E.Ranked.rank A.Arrangement.order A.Arrangement.Kept self.new.count self.new.table.now }
        ensures refused { OnErr result (self.new ≡ self.old) }
        ensures table { OnOk result (A.Arrangement.Cuts lots (first (is E.Ranked.rank.number number) (take self.old.count self.old.table.now)) (place (is E.Ranked.rank.number number) (take self.old.count self.old.table.now)) self.old.count self.old.table.now self.new.table.now) }
    {
        let at = place_of(self.elements(), number).ok_or(Refusal::BadCut)?;
        let e = self.table[at];
        if !can_cut(&e, lots) {
            return Err(Refusal::BadCut);
        }
        let left = e.lots() - lots;
        if left > 0 {
            self.table[at] = e.with_lots(left);
        } else {
            A::remove_at(&mut self.table[..self.count], at);
            self.count -= 1;
        }
        Ok(())
    }

    fn take(&mut self, number: u32) -> Option<E>
        ensures answers { Lawful E.Ranked.rank A.Arrangement.order A.Arrangement.Kept self.old.count self.old.table.now → result ≡ numbered E.Ranked.rank (held_in A.Arrangement.order self.old.count self.old.table.now) number }
        ensures leaves { Lawful E.Ranked.rank A.Arrangement.order A.Arrangement.Kept self.old.count self.old.table.now → held_in A.Arrangement.order self.new.count self.new.table.now ≡ after_take E.Ranked.rank (held_in A.Arrangement.order self.old.count self.old.table.now) number }
        ensures keeps { Lawful E.Ranked.rank A.Arrangement.order A.Arrangement.Kept self.old.count self.old.table.now → Lawful E.Ranked.rank A.Arrangement.order A.Arrangement.Kept self.new.count self.new.table.now }
        ensures refused { IfNone result (self.new ≡ self.old) }
        ensures table { OnSome result (A.Arrangement.Takes self.old.count (place (is E.Ranked.rank.number number) (take self.old.count self.old.table.now)) self.old.table.now self.new.table.now) }
    {
        let at = place_of(self.elements(), number)?;
        let e = self.table[at];
        A::remove_at(&mut self.table[..self.count], at);
        self.count -= 1;
        Some(e)
    }

    ghost sound = { λ q lawful. lawful.sound };
}
