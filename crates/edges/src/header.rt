// 01, Order of checks, Header: H (01, The book and its listing) with one or two fields changed.

pub(crate) static CASES: &[(&str, &str)] = &[
    // Under 20 octets: 5015 (0), whatever the length field says.
    ("octets_19", "#01000014C08000730100008400000001000000"),
    // Length field under 20: 5015 (1).
    (
        "length_field_16",
        "#01000010C0800073010000840000000100000002",
    ),
    // No multiple of 4, in a slice of that length: 5015 (1).
    ("length_22", "#01000016C08000730100008400000001000000020000"),
    // Version is listed before the length field: 5011 (0).
    (
        "version_before_length",
        "#02000018C0800073010000840000000100000002",
    ),
    // Application and code both wrong: 3007 (8) is listed before 3001.
    (
        "application_before_code",
        "#01000014C0800074010000850000000100000002",
    ),
    // Code wrong and P clear: 3001 (5) is listed before 3008.
    (
        "code_before_flags",
        "#0100001480800074010000840000000100000002",
    ),
    // E set, P clear: an answer with E (02, [1]), which lacks 264 at its end, 20.
    ("flags_20", "#0100001420800073010000840000000100000002"),
    // P clear without E, R and E: 3008 (4).
    ("flags_00", "#0100001400800073010000840000000100000002"),
    ("flags_A0", "#01000014A0800073010000840000000100000002"),
    // R set, P clear: 3008 (4).
    ("flags_80", "#0100001480800073010000840000000100000002"),
    // 01, Header: the four reserved bits are ignored; H lacks 263 at its end, 20.
    ("flags_CF", "#01000014CF800073010000840000000100000002"),
    // No check forbids T in an answer; it lacks 263 at its end, 20.
    ("flags_50", "#0100001450800073010000840000000100000002"),
];
