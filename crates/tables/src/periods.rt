// The periods of Campbell and Bozorgnia 2008.
ghost use Rattle.std.specs.Prelude.{◌≡◌, ◌<◌, length};
ghost use Rattle.tables.specs.Tables.{periods, period_at};

// The period of a measure from 0 to 20, in thousandths of a second. By its number, as Table 2.
pub fn period_at(i: usize) -> u64
    requires { i < length periods }
    ensures { result ≡ period_at i }
{
    match i {
        0 => 10,
        1 => 20,
        2 => 30,
        3 => 50,
        4 => 75,
        5 => 100,
        6 => 150,
        7 => 200,
        8 => 250,
        9 => 300,
        10 => 400,
        11 => 500,
        12 => 750,
        13 => 1_000,
        14 => 1_500,
        15 => 2_000,
        16 => 3_000,
        17 => 4_000,
        18 => 5_000,
        19 => 7_500,
        _ => 10_000,
    }
}
