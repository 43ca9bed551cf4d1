// What the three ranges answer.
use price_range::PriceRange;
use price_range::band::Band;
use price_range::day::{DayLimits, DayRange};
use price_range::quote::QuoteRange;
use std::test::Fail;
use terms::setup::Span;

// The band from low to high.
fn band(low: u32, high: u32) -> Option<Band> {
    Some(Band { low, high })
}

#[test]
fn quotes(rt: HostRuntime) {
    let mut range = QuoteRange::new();
    assert_eq!(rt; range.band(), None);
    range.tell(104, 100);
    assert_eq!(rt; range.band(), None);
    range.tell(100, 104);
    assert_eq!(rt; range.band(), band(100, 104));
    range.tell(105, 101);
    assert_eq!(rt; range.band(), band(100, 104));
    range.tell(98, 98);
    assert_eq!(rt; range.band(), band(98, 98));
}

#[test]
fn days(rt: HostRuntime) -> Result<(), Fail> {
    let Ok(mut range) = DayRange::new(Span::new(90, 110)) else {
        return Err(Fail::new("refused"));
    };
    range.tell(1, 2);
    assert_eq!(rt; range.band(), band(90, 110));
    assert!(rt; DayRange::new(Span::new(0, 110)).is_err());
    assert!(rt; DayRange::new(Span::new(111, 110)).is_err());
    assert!(rt; DayRange::new(Span::new(1, 100_001)).is_err());
    assert!(rt; DayRange::new(Span::new(100_000, 100_000)).is_ok());
    Ok(())
}

#[test]
fn limits(rt: HostRuntime) -> Result<(), Fail> {
    let Ok(mut range) = DayLimits::new(Span::new(90, 110), QuoteRange::new()) else {
        return Err(Fail::new("refused"));
    };
    assert_eq!(rt; range.band(), None);
    range.tell(80, 100);
    assert_eq!(rt; range.band(), band(90, 100));
    range.tell(100, 120);
    assert_eq!(rt; range.band(), band(100, 110));
    range.tell(111, 120);
    assert_eq!(rt; range.band(), None);
    range.tell(95, 105);
    assert_eq!(rt; range.band(), band(95, 105));
    Ok(())
}
