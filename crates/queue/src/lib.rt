// Ranked elements and ranked queues: the interfaces, and what they mean.
#![tactic(auto)]

ghost use Rattle.std.specs.Prelude.{◌≡◌, ℕ, true, false, length, IfNone, OnErr, ◌≢◌};
ghost use Rattle.queue.specs.Rank.{Rank, ExactlyOne, OnlyLots};
ghost use Rattle.queue.specs.Held.{Held, Sound, head, first, any, takes, numbered, barred, uncut, answer, after_put, after_cut, after_take};

use terms::refusal::Refusal;

pub mod search;
pub mod through;

// A kind of element that has a number, a key, lots and a rank.
pub trait Ranked: Copy {
    ghost rank: { Rank Self };

    fn number(&self) -> u32
        ensures { result ≡ rank.number self.now };

    fn key(&self) -> u32
        ensures { result ≡ rank.key self.now };

    fn lots(&self) -> u32
        ensures { result ≡ rank.lots self.now };

    fn ranks_before(&self, other: &Self) -> bool
        ensures { result ≡ rank.before self.now other.now };

    fn with_lots(self, left: u32) -> Self
        ensures { result ≡ rank.with_lots self left };

    // Nothing ranks before itself.
    ghost irreflexive: { (x : Self) → rank.before x x ≡ false };

    // Ranking passes along a chain.
    ghost transitive: { (x y z : Self) → rank.before x y ≡ true → rank.before y z ≡ true → rank.before x z ≡ true };

    // Of two elements with different keys exactly one ranks before the other.
    ghost connected: { (x y : Self) → (rank.key x ≢ rank.key y) → ExactlyOne (rank.before x y) (rank.before y x) };

    // Other lots leave an element what it is otherwise.
    ghost relotted: { (x : Self) (n : ℕ) → OnlyLots rank x n };
}

// A queue of ranked elements. A lawful one is what it should be: its promises rest on that, and every call hands it on.
pub trait Queue<E: Ranked> {
    ghost lawful: { Self → Type 0 };

    ghost held: { Self → Held E };

    // How many elements there are. An empty queue is lawful.
    // What a lawful one holds is sound, as `capacity` and `find` say too, for a caller who reads clauses and no law.
    fn count(&self) -> usize
        ensures counts { result ≡ length (held self.now).elements }
        ensures sound { lawful self.now → Sound E.Ranked.rank (held self.now) }
        ensures empty { length (held self.now).elements ≡ 0 → lawful self.now };

    // How many there can be.
    fn capacity(&self) -> usize
        ensures holds { result ≡ (held self.now).capacity }
        ensures sound { lawful self.now → Sound E.Ranked.rank (held self.now) };

    // The element that ranks first.
    fn first(&self) -> Option<E>
        ensures { lawful self.now → result ≡ head (held self.now).elements };

    // The first of those that `e` ranks before.
    fn first_after(&self, e: &E) -> Option<E>
        ensures { lawful self.now → result ≡ first (E.Ranked.rank.before e.now) (held self.now).elements };

    // The element with this number.
    fn find(&self, number: u32) -> Option<E>
        ensures finds { lawful self.now → result ≡ numbered E.Ranked.rank (held self.now) number }
        ensures sound { lawful self.now → Sound E.Ranked.rank (held self.now) };

    // Whether an element other than the one numbered `except` has `value` as its number or key.
    fn is_taken(&self, value: u32, except: Option<u32>) -> bool
        ensures { result ≡ any (takes E.Ranked.rank value except) (held self.now).elements };

    // Puts an element in.
    fn put(&mut self, e: E) -> Result<(), Refusal>
        ensures answers { lawful self.old → result ≡ answer (barred E.Ranked.rank (held self.old) e) }
        ensures leaves { lawful self.old → held self.new ≡ after_put E.Ranked.rank (held self.old) e }
        ensures keeps { lawful self.old → lawful self.new }
        ensures refused { OnErr result (self.new ≡ self.old) };

    // Cuts lots off an element, which leaves where it has no more.
    fn cut(&mut self, number: u32, lots: u32) -> Result<(), Refusal>
        ensures answers { lawful self.old → result ≡ answer (uncut E.Ranked.rank lots (numbered E.Ranked.rank (held self.old) number)) }
        ensures leaves { lawful self.old → held self.new ≡ after_cut E.Ranked.rank (held self.old) number lots }
        ensures keeps { lawful self.old → lawful self.new }
        ensures refused { OnErr result (self.new ≡ self.old) };

    // Takes an element out and hands it over.
    fn take(&mut self, number: u32) -> Option<E>
        ensures answers { lawful self.old → result ≡ numbered E.Ranked.rank (held self.old) number }
        ensures leaves { lawful self.old → held self.new ≡ after_take E.Ranked.rank (held self.old) number }
        ensures keeps { lawful self.old → lawful self.new }
        ensures refused { IfNone result (self.new ≡ self.old) };

    // What a lawful queue holds is sound.
    ghost sound: { (q : Self) → lawful q → Sound E.Ranked.rank (held q) };
}
