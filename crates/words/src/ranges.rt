// Ranges: 2 ^ order selectors from an aligned base on.
ghost use Rattle.std.specs.Prelude.{◌≡◌, ◌^◌, ◌<◌};
ghost use Rattle.words.specs.Ranges.{aligned, rounded};

// How many selectors a range of an order has.
pub fn size(order: u32) -> u32
    requires { order < 32 }
    ensures { result ≡ 2 ^ order }
{
    1 << order
}

// Whether a range of an order may begin at a base: at 0 always, and at any other base that has at least as many trailing zero bits as the order says.
pub fn is_aligned(order: u32, base: u32) -> bool
    ensures { result ≡ aligned order base }
{
    if base == 0 {
        return true;
    }
    order <= u32::trailing_zeros(base)
}

// A number rounded down to a multiple of 2 ^ order: the base of the range of that order around it.
pub fn round_down(order: u32, number: u32) -> u32
    requires { order < 32 }
    ensures { result ≡ rounded order number }
{
    number - number % size(order)
}
