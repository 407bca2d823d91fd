// The customary multipliers: for each width from 3 to 64 the largest odd power of 5 below 2^width. Document 01 asks for a
// constant table.
ghost use Rattle.std.specs.Prelude.{◌≡◌, ◌≤◌};
ghost use Rattle.customary.specs.Customary.{customary_of, CustomaryTable};

const MULTIPLIERS: [u64; 62] = [
    5, // width 3
    5, // width 4
    5, // width 5
    5, // width 6
    125, // width 7
    125, // width 8
    125, // width 9
    125, // width 10
    125, // width 11
    3125, // width 12
    3125, // width 13
    3125, // width 14
    3125, // width 15
    3125, // width 16
    78125, // width 17
    78125, // width 18
    78125, // width 19
    78125, // width 20
    1953125, // width 21
    1953125, // width 22
    1953125, // width 23
    1953125, // width 24
    1953125, // width 25
    48828125, // width 26
    48828125, // width 27
    48828125, // width 28
    48828125, // width 29
    48828125, // width 30
    1220703125, // width 31
    1220703125, // width 32
    1220703125, // width 33
    1220703125, // width 34
    30517578125, // width 35
    30517578125, // width 36
    30517578125, // width 37
    30517578125, // width 38
    30517578125, // width 39
    762939453125, // width 40
    762939453125, // width 41
    762939453125, // width 42
    762939453125, // width 43
    762939453125, // width 44
    19073486328125, // width 45
    19073486328125, // width 46
    19073486328125, // width 47
    19073486328125, // width 48
    476837158203125, // width 49
    476837158203125, // width 50
    476837158203125, // width 51
    476837158203125, // width 52
    476837158203125, // width 53
    11920928955078125, // width 54
    11920928955078125, // width 55
    11920928955078125, // width 56
    11920928955078125, // width 57
    11920928955078125, // width 58
    298023223876953125, // width 59
    298023223876953125, // width 60
    298023223876953125, // width 61
    298023223876953125, // width 62
    7450580596923828125, // width 63
    7450580596923828125, // width 64
];

// The whole table, with its rule.
fn multipliers() -> [u64; 62]
    ensures { CustomaryTable result }
{
    MULTIPLIERS
}

// The table's entry for a width from 3 to 64.
pub fn multiplier(width: u64) -> u64
    requires { (3 ≤ width) × (width ≤ 64) }
    ensures { result ≡ customary_of width }
{
    let table = multipliers();
    let at = (width - 3) as usize;
    table[at]
}
