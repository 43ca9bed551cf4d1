// The sweep after a quote: while the first buy and the first sell can meet, they do.
ghost use Rattle.std.specs.Prelude.{◌≡◌, ◌≤◌, length};
ghost use Rattle.terms.specs.declared.side.Side.{Side as AnySide};
ghost use Rattle.rules.specs.Tables.{FitsBoth, sweep_at};

use crate::matching::{Incoming, meet};
use crate::sides::Sides;
use price_range::band::Band;
use terms::side::Side;
use terms::trade::Trade;

// The first buy meets the sells, and where nothing of it is left the next one does. Says how many trades were written.
pub(crate) fn sweep<D: Sides>(band: Option<Band>, sides: &mut D, trades: &mut [Trade]) -> usize
    ensures places { result ≤ length trades.old }
    ensures keeps { (s : AnySide) → D.lawful sides.old s → D.lawful sides.new s }
    ensures same { D.same_queues sides.old sides.new }
    ensures capacity { ((s : AnySide) → D.lawful sides.old s) → ((D.held sides.new Side.Buy).capacity ≡ (D.held sides.old Side.Buy).capacity) × ((D.held sides.new Side.Sell).capacity ≡ (D.held sides.old Side.Sell).capacity) }
    ensures sweeps { ((s : AnySide) → D.lawful sides.old s) → FitsBoth (D.held sides.old Side.Buy).elements (D.held sides.old Side.Sell).elements 0 trades.old → record { table = trades.new; place = result; buys = (D.held sides.new Side.Buy).elements; sells = (D.held sides.new Side.Sell).elements } ≡ sweep_at band (D.held sides.old Side.Buy).elements (D.held sides.old Side.Sell).elements 0 trades.old }
{
    let mut place = 0;
    while let Some(buy) = sides.first(Side::Buy) {
        let incoming = Incoming {
            side: Side::Buy,
            number: buy.number,
            limit: buy.price,
            lots: buy.lots,
            rested: Some(buy.turn),
        };
        let met = meet(&incoming, band, sides, trades, place);
        let _ = sides.cut(Side::Buy, buy.number, buy.lots - met.left);
        let traded = place < met.place;
        place = met.place;
        if met.left > 0 || !traded {
            break;
        }
    }
    place
}
