// The sides of a book as types.
ghost use Rattle.std.specs.Prelude.{◌≡◌};
ghost use Rattle.terms.specs.declared.side.Side.{Side as AnySide};
ghost use Rattle.terms.specs.declared.side.Side.TheVariants as sides;

use terms::side::Side;

pub trait OneSide: Copy {
    ghost side: { AnySide };

    fn side() -> Side
        ensures { result ≡ side };
}

#[derive(Clone, Copy, Debug, PartialEq, Eq)]
pub struct Buys;

impl OneSide for Buys {
    ghost side = { sides.Buy };

    fn side() -> Side {
        Side::Buy
    }
}

#[derive(Clone, Copy, Debug, PartialEq, Eq)]
pub struct Sells;

impl OneSide for Sells {
    ghost side = { sides.Sell };

    fn side() -> Side {
        Side::Sell
    }
}
