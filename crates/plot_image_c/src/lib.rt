// The C entry of the image check: the static library that a host program in C links.

#![tactic(auto)]

ghost use Rattle.std.specs.Prelude.{◌≡◌};
ghost use Rattle.plot_image.specs.Host.{host_check, host_number, SoundOf};

// 0, or the number of the first fault.
#[unsafe(no_mangle)]
pub extern "C" fn plot_image_check(bytes: &[u8], kind: u32) -> u32
    ensures answer { result ≡ host_number (host_check kind bytes.now) }
    ensures passes { result ≡ 0 → SoundOf kind bytes.now }
    ensures only { SoundOf kind bytes.now → result ≡ 0 }
{
    plot_image::plot_image_check(bytes, kind)
}
