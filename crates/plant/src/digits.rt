// Single bits of numbers.
ghost use Rattle.std.specs.Prelude.{◌≡◌};
ghost use Rattle.plant.specs.Bits.{bit};

// Whether bit `i` of `x` is 1: whether line `i` of setting `x` is on, and whether setting `i` is open in row `x`.
pub fn has_bit(x: u32, i: u32) -> bool
    ensures { result ≡ bit x i }
{
    i < 32 && (x >> i) % 2 == 1
}
