// Binary logarithms in sixteenths, rounded down, from a table.
ghost use Rattle.std.specs.Prelude.{◌≡◌, true, ◌≤◌};
ghost use Rattle.weights.specs.Weights.{sixteenths as S};
ghost use Rattle.weights.specs.Thresholds.{thresholds};

// Entry a is the smallest n with n ^ 16 at least 2 ^ a.
const THRESHOLDS: [u32; 256] = [
    1, 2, 2, 2, 2, 2, 2, 2, 2, 2, 2, 2, 2, 2, 2, 2, 2, 3, 3, 3, 3, 3, 3, 3, 3, 3, 4, 4, 4, 4, 4, 4,
    4, 5, 5, 5, 5, 5, 6, 6, 6, 6, 7, 7, 7, 8, 8, 8, 8, 9, 9, 10, 10, 10, 11, 11, 12, 12, 13, 13,
    14, 15, 15, 16, 16, 17, 18, 19, 20, 20, 21, 22, 23, 24, 25, 26, 27, 29, 30, 31, 32, 34, 35, 37,
    39, 40, 42, 44, 46, 48, 50, 52, 54, 57, 59, 62, 64, 67, 70, 73, 77, 80, 83, 87, 91, 95, 99,
    104, 108, 113, 118, 123, 128, 134, 140, 146, 153, 159, 166, 174, 182, 190, 198, 207, 216, 225,
    235, 246, 256, 268, 280, 292, 305, 318, 332, 347, 363, 379, 395, 413, 431, 450, 470, 491, 512,
    535, 559, 584, 609, 636, 664, 694, 725, 757, 790, 825, 862, 900, 940, 981, 1024, 1070, 1117,
    1167, 1218, 1272, 1328, 1387, 1449, 1513, 1580, 1650, 1723, 1799, 1879, 1962, 2048, 2139, 2234,
    2333, 2436, 2544, 2656, 2774, 2897, 3025, 3159, 3299, 3445, 3597, 3757, 3923, 4096, 4278, 4467,
    4665, 4871, 5087, 5312, 5548, 5793, 6050, 6317, 6597, 6889, 7194, 7513, 7845, 8192, 8555, 8934,
    9329, 9742, 10174, 10624, 11095, 11586, 12099, 12634, 13194, 13778, 14388, 15025, 15690, 16384,
    17110, 17867, 18658, 19484, 20347, 21248, 22189, 23171, 24197, 25268, 26387, 27555, 28775,
    30049, 31379, 32768, 34219, 35734, 37316, 38968, 40694, 42495, 44377, 46341, 48393, 50536,
    52773, 55109, 57549, 60097, 62758,
];

// The logarithm of n by such a table. The highest set bit tells it to 16 sixteenths; the entries between are halved until one is left.
fn look_up(table: &[u32], n: u32) -> u32
    requires { (thresholds table.now ≡ true) × (1 ≤ n) × (n ≤ 65535) }
    ensures { result ≡ S n }
{
    let mut low = 16 * (31 - n.leading_zeros());
    let mut high = low + 16;
    // no index is counted: the two ends close in, in four turns, where the library's search would look five times
    while low + 1 < high {
        let middle = (low + high) / 2;
        if table[middle as usize] <= n {
            low = middle;
        } else {
            high = middle;
        }
    }
    low
}

// The logarithm of n.
pub fn sixteenths(n: u32) -> u32
    requires { (1 ≤ n) × (n ≤ 65535) }
    ensures { result ≡ S n }
{
    look_up(&THRESHOLDS, n)
}
