/// The problems whose bounds are printed, each by the name of its domain and its own, in the order in which they are
/// printed. How a bound comes about is said here, or in the comments of `data/`.
pub const CASES: &[(&str, &str)] = &[
    // t has 1, the block of a, and so has the top task
    ("smallest", "smallest"),
    ("smallest", "empty"),
    // the block of a has 1, and 1 for t behind it: 2; t is left out, since it is alone in the last block of m1
    ("tail-recursion", "tail-recursion"),
    ("not-tail", "smallest"),
    ("blocks", "unordered"),
    ("blocks", "ordered"),
    ("powers", "t127"),
    ("powers", "t128"),
    ("powers", "most"),
    ("powers", "past"),
    // x has 2; with 1 for y behind it 3
    ("waiting", "waiting"),
    // the check of m has 1, and 1 for a behind it: t has 2; with u 3
    ("late-check", "late-check"),
    // drive has 1, and 1 for get-to behind it: get-to has 2; with three behind it deliver has 5; three times 5 is 15
    ("transport", "transport"),
    ("written-last", "smallest"),
    ("ordered-last", "smallest"),
    ("two-methods", "smallest"),
    ("passed-over", "smallest"),
    ("shortest-way", "smallest"),
    ("first-way", "smallest"),
    ("unreached", "smallest"),
    ("alone", "smallest"),
    ("group", "one-u"),
    ("below", "smallest"),
    ("check", "smallest"),
    ("orders", "pair"),
    ("orders", "chain"),
    ("orders", "tower"),
    ("orders", "fork"),
    ("orders", "join"),
    ("orders", "zigzag"),
    ("orders", "diamond"),
    ("orders", "two-chains"),
    ("orders", "crossing"),
    ("orders", "middle"),
];
