// Searches through a table of elements, in one pass each.
ghost use Rattle.std.specs.Prelude.{◌≡◌, position};
ghost use Rattle.queue.specs.Held.{first, any, is, clash, takes, cuttable};

use crate::Ranked;

// The place of the element with this number.
pub fn place_of<E: Ranked>(elements: &[E], number: u32) -> Option<usize>
    ensures { result ≡ position (is E.Ranked.rank.number number) elements.now }
{
    elements.iter().position(|e| e.number() == number)
}

// The element with this number.
pub fn find<E: Ranked>(elements: &[E], number: u32) -> Option<E>
    ensures { result ≡ first (is E.Ranked.rank.number number) elements.now }
{
    elements.iter().find(|e| e.number() == number).copied()
}

// The first element, in the order of the table, that `e` ranks before.
pub fn first_after<E: Ranked>(elements: &[E], e: &E) -> Option<E>
    ensures { result ≡ first (E.Ranked.rank.before e.now) elements.now }
{
    elements.iter().find(|f| e.ranks_before(f)).copied()
}

// Whether so many lots can be cut off `e`: at least one, and no more than it has.
pub fn can_cut<E: Ranked>(e: &E, lots: u32) -> bool
    ensures { result ≡ cuttable E.Ranked.rank lots e.now }
{
    1 <= lots && lots <= e.lots()
}

// Whether an element has the number or the key of `e`.
pub fn clashes<E: Ranked>(elements: &[E], e: &E) -> bool
    ensures { result ≡ any (clash E.Ranked.rank e.now) elements.now }
{
    elements
        .iter()
        .any(|f| f.number() == e.number() || f.key() == e.key())
}

// Whether `e` is not the element numbered `except`, and has `value` as its number or key.
fn takes_value<E: Ranked>(e: &E, value: u32, except: Option<u32>) -> bool
    ensures { result ≡ takes E.Ranked.rank value except e.now }
{
    except != Some(e.number()) && (e.number() == value || e.key() == value)
}

// Whether an element other than the one numbered `except` has `value` as its number or key.
pub fn is_taken<E: Ranked>(elements: &[E], value: u32, except: Option<u32>) -> bool
    ensures { result ≡ any (takes E.Ranked.rank value except) elements.now }
{
    elements.iter().any(|e| takes_value(e, value, except))
}
