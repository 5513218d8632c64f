use super::*;
use std::test::Fail;

#[test]
fn reads_units(rt: HostRuntime) {
    let cases = [
        ("5", 0, Ok(5)),
        ("-0.50", 1, Ok(-5)),
        ("+1.25", 2, Ok(125)),
        ("+1.25", 1, Err(NumFault::TooFine)),
        ("007", 0, Ok(7)),
        ("1000000000000", 0, Ok(1_000_000_000_000)),
        ("1000000000000.0", 0, Ok(1_000_000_000_000)),
        ("1000000000001", 0, Err(NumFault::OutOfRange)),
        ("-100000000000.1", 1, Err(NumFault::OutOfRange)),
        ("1", 13, Err(NumFault::OutOfRange)),
        ("0", 255, Ok(0)),
        ("", 0, Err(NumFault::NotANumber)),
        ("1.", 0, Err(NumFault::NotANumber)),
        (".5", 1, Err(NumFault::NotANumber)),
        ("+-1", 0, Err(NumFault::NotANumber)),
        ("--1", 0, Err(NumFault::NotANumber)),
        ("1e3", 0, Err(NumFault::NotANumber)),
        (" 1", 0, Err(NumFault::NotANumber)),
    ];
    for (text, scale, want) in cases {
        assert_eq!(rt; read_decimal(text, scale), want, "{text} at {scale}");
    }
}

#[test]
fn prints_units(rt: HostRuntime) -> Result<(), Fail> {
    let cases = [
        (50, 1, "5.0"),
        (-5, 1, "-0.5"),
        (7, 0, "7"),
        (-7, 0, "-7"),
        (0, 3, "0.000"),
        (1234, 2, "12.34"),
        (i128::MAX, 0, "170141183460469231731687303715884105727"),
        (i128::MIN, 2, "-1701411834604692317316873037158841057.28"),
    ];
    for (value, scale, want) in cases {
        let text = print_decimal(rt.alloc(), value, scale)?;
        assert_eq!(rt; text.as_str(), want, "{value} at {scale}");
    }
    Ok(())
}

#[test]
fn laws_can_be_called(_rt: HostRuntime) {
    one_reading();
    printed_is_read();
}
