ghost use Rattle.std.specs.Prelude.{◌≡◌, ◌≤◌};
ghost use Rattle.tempo.specs.Tempo.{luby};

/// The sequence of Luby, Sinclair and Zuckerman (1993) at a place from 1 on: 1, 1, 2, 1, 1, 2, 4, 1 and so on.
///
/// It takes at most 32 steps: a place moves to the first half of its part of the sequence until it is the last of one.
pub fn luby(t: u32) -> u64
    requires { 1 ≤ t }
    ensures { result ≡ luby t }
{
    let mut place = u64::from(t);
    let mut half: u64 = 1 << 31;
    while place + 1 != 2 * half {
        if place >= half {
            place = place - half + 1;
        }
        half /= 2;
    }
    half
}
