//! Whether a machine is of an image and a configuration.

ghost use Rattle.std.specs.Prelude.{◌≡◌, ◌↔◌, IsTrue};
ghost use Rattle.elf_loader.specs.Image.{IsImage};

use elf_loader::Image;
use locked_fabric::coherent_machine::Machine;
use machine_types::Config;

fn is_same_image(one: &Image, other: &Image) -> bool
    ensures same { IsTrue result ↔ (one.now ≡ other.now) }
    ensures image { IsImage other.now }
{
    one.entry() == other.entry() && one.bytes() == other.bytes()
}

/// Whether the machine runs this image in this configuration.
pub(crate) fn is_of(machine: &Machine, image: &Image, config: &Config) -> bool
    ensures same { IsTrue result ↔ ((machine.now.trace.image ≡ image.now) × (machine.now.views.config ≡ config.now)) }
    ensures image { IsImage image.now }
{
    is_same_image(machine.trace().image(), image) && machine.views().config() == config
}
