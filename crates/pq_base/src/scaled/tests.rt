use super::*;

#[test]
fn gives_units(rt: HostRuntime) {
    let cases = [
        (5, 0, 0, Ok(5)),
        (1250, 3, 2, Ok(125)),
        (-125, 2, 2, Ok(-125)),
        (125, 2, 4, Ok(12500)),
        (125, 2, 1, Err(NumFault::TooFine)),
        (0, 30, 0, Ok(0)),
        (10_000_000_000_000, 1, 0, Ok(1_000_000_000_000)),
        (1_000_000_000_001, 0, 0, Err(NumFault::OutOfRange)),
        (-1, 0, 255, Err(NumFault::OutOfRange)),
    ];
    for (mant, places, scale, want) in cases {
        assert_eq!(rt;
            Scaled::of(mant, places).units(scale),
            want,
            "{mant} / 10^{places} at {scale}"
        );
    }
}

#[test]
fn leaves_out_zeros(rt: HostRuntime) {
    assert_eq!(rt; Scaled::of(-1250, 3), Scaled::new(-125, 2));
    assert_eq!(rt; Scaled::of(1250, 0), Scaled::new(1250, 0));
}
