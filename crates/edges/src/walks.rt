// 01, Order of checks, Walk. Where a case stands in no whole command, its fault comes before all rows.
use crate::start;

pub(crate) static CASES: &[(&str, &str)] = &[
    // Check 2, under 8 octets left: vendor and code are 0. The list is that of a 260 at 32 whose 266 ends at 52, or the
    // command's.
    (
        start::REQUEST,
        "stray_1 M263:73 #0000010440000015 M266=10415 #00000107
        stray_2 M263:73 #0000010440000016 M266=10415 #00000107
        stray_3 M263:73 #0000010440000017 M266=10415 #00000107
        stray_4 M263:73 #0000010440000018 M266=10415 #00000107
        stray_5 M263:73 #0000010440000019 M266=10415 #0000010740000008
        stray_6 M263:73 #000001044000001A M266=10415 #0000010740000008
        stray_7 M263:73 #000001044000001B M266=10415 #0000010740000008
        stray_4_in_command M263:73 #00000107",
    ),
    // Check 2, the other clauses: V set with under 12 left, in the command's list and in a 260 of 19 octets, whose
    // padding follows; a length below 12 with V; a padded length beyond the list. 01, What comes back: the code is
    // given if 8 octets are left, the vendor if V is set and 12 are.
    (
        start::REQUEST,
        "v_with_8_left M263:73 #0000106BC000000C
        v_with_11_left M263:73 #0000010440000013 #0000106BC000000C000028AF
        v_with_length_11 M263:73 #0000106BC000000B000028AF
        length_beyond_list M263:73 #0000106BC000000D000028AF",
    ),
    // 01, AVP: a group's data is its members, each with padding. This 284 leaves out that of its 33, which is at 52.
    (
        start::REQUEST,
        "group_without_padding M263:73 #0000011C4000001D M280:68 M33:73",
    ),
    // Check 3: a reserved flag, and V set with vendor 0, for a name of the dictionary and for one that it lacks; M
    // clear where the dictionary has M.
    (
        start::REQUEST,
        "reserved_flag #000001075000000973000000
        reserved_flag_unknown #0000270F01000008
        v_with_vendor_0 #00000107C000000D0000000073000000
        v_with_vendor_0_unknown #0000270F8000000C00000000
        258_without_m M263:73 258=1",
    ),
    // 01, Dictionary: M is free for 281.
    (
        start::S,
        "281_without_m 281:65
        281_with_m M281:65",
    ),
    // 01, Readings that look right: 4203 with V wants M; without V it is unknown, and 5001 with M (check 4). Without V
    // and M it is no Transfer-Request-Type, and that row is missing at the command's end.
    (
        start::BEGUN_REQUEST,
        "4203_without_m V4203=1 M293:68 VM4202:72 VM4208=1
        4203_without_v M4203=1 M293:68 VM4202:72 VM4208=1
        4203_without_v_and_m 4203=1 M293:68 VM4202:72 VM4208=1",
    ),
    // Checks 4 to 6. 01, AVP: an AVP is named by vendor and code together. Widths of four and eight octets. The value
    // of 277, in the command's list and in a group; that of 4203 in an answer.
    (
        start::REQUEST,
        "263_of_3gpp VM263:73
        277_of_3_octets M263:73 M277:000001
        4203_of_1_octet M263:73 VM4203:01
        414_of_4_octets M263:73 M414=1
        277_is_0 M263:73 M277=0
        277_is_0_in_group M263:73 M284(M277=0)",
    ),
    (start::ANSWER, "type_2_in_answer M263:73 VM4203=2"),
    // Check 7: the command's own list is depth 1, and the fourth 284 is at 56. Check 3 is before it.
    (
        start::REQUEST,
        "group_at_depth_4 M263:73 M284(M284(M284(M284())))
        group_at_depth_4_without_m M263:73 M284(M284(M284(284())))",
    ),
    // An AVP that is no group passes there.
    (
        start::S,
        "plain_at_depth_4 M284(M280:68 M33:73 M284(M280:68 M33:73 M284(M280:68 M33:73)))",
    ),
    // 01, Not judged: anything inside 279, 621, 623, 650 or an AVP that the dictionary lacks.
    (
        start::BEGUN_ANSWER,
        "failed_avp M268=5014 M279:00000107410000
        oc_olr_and_load M268=2001 621:FF 623:FF 650:FF",
    ),
    (start::S, "unknown 9999:0000010741"),
];
