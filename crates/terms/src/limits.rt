// The limits of the rules.

// Prices are whole kuruş from 1 to this.
pub const PRICE_MAX: u32 = 100_000;
// An order, and a leg of a quote, has 1 to this many lots.
pub const LOTS_MAX: u32 = 10_000_000;
// Members are 1 to this; the market maker is member 0.
pub const MEMBER_MAX: u32 = 255;
// Turns run from 1 to this.
pub const TURN_MAX: u32 = 1_000_000;
// A tick is 1 to this.
pub const TICK_MAX: u32 = 100;
// The capacity of a book's queue is 1 to this.
pub const CAPACITY_MAX: usize = 1_024;
// A tape has at most this many bytes.
pub const TAPE_MAX: usize = 4_096;
// The places of each queue of a tape's book.
pub const TAPE_PLACES: usize = 64;
