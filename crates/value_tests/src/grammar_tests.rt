use grammar::*;

#[test]
fn numbers_have_a_width_and_bounds(rt: HostRuntime) {
    // bytes, the width of a number at their begin, its bounds, and the number
    let read = &[
        ([0x01, 0x02, 0x03], 2, 0, 1024, 258),
        ([0x04, 0x00, 0x09], 2, 0, 1024, 1024),
        ([0x08, 0xFF, 0xFF], 1, 1, 8, 8),
    ];
    for &(bytes, width, least, most, want) in read {
        let found = number_of(&bytes, width, least, most);
        assert!(rt; matches!(found, Ok((n, _)) if n == want), "at {want}");
    }
}

#[test]
fn numbers_past_their_bounds_are_refused(rt: HostRuntime) {
    // the same, and how many bytes are left where the reader stops
    let refused = &[
        ([0x04, 0x01, 0x09], 2, 0, 1024, 2),
        ([0x05, 0x00, 0x09], 2, 0, 1024, 3),
        ([0x00, 0x00, 0x09], 2, 1, 65535, 2),
        ([0x00, 0x00, 0x00], 4, 1, 65535, 0),
    ];
    for &(bytes, width, least, most, want) in refused {
        let found = number_of(&bytes, width, least, most);
        assert!(rt;
            matches!(found, Err(Stop::At { left }) if left == want),
            "at {want}"
        );
    }
}
