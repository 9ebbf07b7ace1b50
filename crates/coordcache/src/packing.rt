// The packing of a state (docs/PACKING.md), told by a name: a caller that was made for another packing does not link.
ghost use Rattle.std.specs.Prelude.{◌≡◌};

// The number rises with every change of what a byte of a state means.
#[unsafe(no_mangle)]
pub extern "C" fn coord_cache_packing_1() -> u8
    ensures { result ≡ 1 }
{
    1
}
