// Arithmetic of lengths.
ghost use Rattle.std.specs.Prelude.{◌≡◌, ◌-◌};

// a less b, and 0 where b is more.
pub fn less_by(a: u8, b: u8) -> u8
    ensures { result ≡ a - b }
{
    a.saturating_sub(b)
}
