//! Halves by their numbers.
ghost use Rattle.std.specs.Prelude.{◌≡◌};
ghost use Rattle.links.specs.Links.{rev as other};

/// The other half of the same edge.
pub fn rev(h: u32) -> u32
    ensures { result ≡ other h }
{
    if h % 2 == 0 { h + 1 } else { h - 1 }
}
