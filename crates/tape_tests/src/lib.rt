// Examples of the tape's functions, run as tests.
#![tactic(auto)]

#[cfg(test)]
mod tests {
    use std::test::Fail;
    use tape::decimal::write_decimal;
    use tape::message::read_message;
    use tape::number::read_number;
    use tape::setup::read_setup;
    use terms::message::Message;

    // How a number reads: its value and how many bytes are left, or the number under which hosts see the refusal.
    fn number_as(bytes: &[u8]) -> Result<(u32, usize), u8> {
        read_number(bytes)
            .map(|(n, rest)| (n, rest.len()))
            .map_err(u8::from)
    }

    #[test]
    fn decimals(rt: HostRuntime) {
        let mut out = [b'.'; 4];
        assert_eq!(rt; write_decimal(&mut out, 1, 0), Some(2));
        assert!(rt; &out == b".0..");
        assert_eq!(rt; write_decimal(&mut out, 1, 9), Some(2));
        assert!(rt; &out == b".9..");
        assert_eq!(rt; write_decimal(&mut out, 2, 10), Some(4));
        assert!(rt; &out == b".910");
    }

    #[test]
    fn decimal_of_64_bits(rt: HostRuntime) {
        let mut out = [b'.'; 22];
        assert_eq!(rt;
            write_decimal(&mut out, 1, 18_446_744_073_709_551_615),
            Some(21)
        );
        assert!(rt; &out == b".18446744073709551615.");
    }

    #[test]
    fn decimal_without_room(rt: HostRuntime) {
        let mut out = [b'.'; 4];
        assert_eq!(rt; write_decimal(&mut out, 3, 10), None);
        assert_eq!(rt; write_decimal(&mut out, 4, 0), None);
        assert_eq!(rt;
            write_decimal(&mut out, 18_446_744_073_709_551_615, 0),
            None
        );
        assert!(rt; &out == b"....");
    }

    #[test]
    fn numbers(rt: HostRuntime) {
        assert_eq!(rt; number_as(b""), Err(2));
        assert_eq!(rt; number_as(b"\x80"), Err(2));
        assert_eq!(rt; number_as(b"\x80\x80\x80"), Err(2));
        assert_eq!(rt; number_as(b"\x80\x00"), Err(4));
        assert_eq!(rt; number_as(b"\x80\x80\x80\x80"), Err(4));
        assert_eq!(rt; number_as(b"\x00\x07"), Ok((0, 1)));
        assert_eq!(rt; number_as(b"\xe8\x07\x01"), Ok((1_000, 1)));
        assert_eq!(rt; number_as(b"\xff\xff\xff\x7f"), Ok((268_435_455, 0)));
    }

    #[test]
    fn set_up_of_the_sample(rt: HostRuntime) -> Result<(), Fail> {
        let bytes = b"\x01\x01\x64\x01\xe8\x07\x01\xa0\x8d\x06\x00\x00\x51";
        let (setup, rest) = read_setup(bytes).map_err(|_| Fail::new("refused"))?;
        assert_eq!(rt; rest.len(), 1);
        assert_eq!(rt; setup.instrument.quote_lots.greatest, 1_000);
        assert_eq!(rt; setup.day.greatest, 100_000);
        Ok(())
    }

    #[test]
    fn quote_of_the_sample(rt: HostRuntime) -> Result<(), Fail> {
        let Ok((Message::Quote(q), rest)) = read_message(b"\x51\x64\x32\x68\x32\x42") else {
            return Err(Fail::new("no quote"));
        };
        assert_eq!(rt; rest.len(), 1);
        assert_eq!(rt; (q.bid_price, q.bid_lots), (100, 50));
        assert_eq!(rt; (q.ask_price, q.ask_lots), (104, 50));
        Ok(())
    }
}
