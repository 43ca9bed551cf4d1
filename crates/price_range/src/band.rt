// The prices at which trades may be made.
ghost use Rattle.std.specs.Prelude.{◌≡◌};
ghost use Rattle.price_range.specs.declared.band.Band.{Band as AnyBand};

use terms::setup::Span;

// Every whole kuruş from low to high.
#[derive(Clone, Copy, Debug, PartialEq, Eq)]
pub struct Band {
    pub low: u32,
    pub high: u32,
}

// From the least to the greatest.
impl From<Span> for Band {
    ghost from_gives = { λ span band. band ≡ record { low = span.least; high = span.greatest } };

    fn from(span: Span) -> Band {
        Band {
            low: span.least,
            high: span.greatest,
        }
    }
}
