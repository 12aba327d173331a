ghost use Rattle.std.specs.Prelude.{◌≡◌, ◌≤◌, ◌<◌, ◌^◌};
ghost use Rattle.core_rows.specs.Noise.{noise as noise_of, start_of};

use crate::row::Row;

/// A number that looks random: the mixing function of SplitMix64 (Steele, Lea and Flood 2014), at
/// place `1 + i * 2^32 + v` of the sequence that `seed` begins.
pub fn noise(seed: u64, i: u64, v: u64) -> u64
    ensures { result ≡ noise_of seed i v }
{
    let place = i
        .wrapping_mul(0x1_0000_0000)
        .wrapping_add(v)
        .wrapping_add(1);
    let start = seed.wrapping_add(place.wrapping_mul(0x9e37_79b9_7f4a_7c15));
    let once = (start ^ (start >> 30)).wrapping_mul(0xbf58_476d_1ce4_e5b9);
    let twice = (once ^ (once >> 27)).wrapping_mul(0x94d0_49bb_1331_11eb);
    twice ^ (twice >> 31)
}

/// The activity with which core `i` begins variable `v`: the high bits of the noise, as many as the
/// row asks for.
#[tactic(auto, using(crate::proofs::HighBits::high_below))]
pub fn start_activity(row: &Row, seed: u64, i: u64, v: u64) -> u64
    requires { row.now.noise ≤ 64 }
    ensures value { result ≡ start_of row.now.noise seed i v }
    ensures below { result < 2 ^ row.now.noise }
{
    if row.noise == 0 {
        return 0;
    }
    noise(seed, i, v) >> (64 - row.noise)
}
