//! Finding a place among numbers that rise.

ghost use Rattle.std.specs.Prelude.{◌≡◌, ◌≢◌, ◌≤◌, true, false, slice_get, Some};
ghost use Rattle.std.specs.VecDeque.{deque_len};
ghost use Rattle.bx_post.specs.Rising.{IsRising, places_to};

use std::collections::VecDeque;

/// How many of these numbers, which rise, are at most a bound. It takes as many steps as their count has binary digits.
pub fn place_above(numbers: &VecDeque<u64>, bound: u64) -> usize
    requires { IsRising numbers.now.items }
    ensures { result ≡ places_to bound numbers.now.items }
{
    let mut low = 0;
    let mut high = numbers.len();
    while low < high {
        let middle = low + (high - low) / 2;
        if numbers[middle] <= bound {
            low = middle + 1;
        } else {
            high = middle;
        }
    }
    low
}

/// Whether a number stands at a place.
pub(crate) fn stands_at(numbers: &VecDeque<u64>, place: usize, number: u64) -> bool
    ensures there { result ≡ true → slice_get numbers.now.items place ≡ Some number }
    ensures elsewhere { result ≡ false → slice_get numbers.now.items place ≢ Some number }
{
    match numbers.get(place) {
        Some(found) => *found == number,
        None => false,
    }
}
