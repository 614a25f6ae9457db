//! What a search is asked of.

ghost use Rattle.std.specs.Prelude.{◌≡◌, Err, IfErr, IfOk, option_map};
ghost use Rattle.command_files.specs.Allowing.{IsAllowFile};
ghost use Rattle.command_files.specs.Files.{HoldsImage};
ghost use Rattle.command_files.specs.Sizes.{IsInside, IsOutside, config_named};
ghost use Rattle.elf_loader.specs.Size.{IsMemoryKib};
ghost use Rattle.explore_command.specs.Exploring.{IsFirstFault};
ghost use Rattle.explore_command.specs.Keeping.{HasName};
ghost use Rattle.command_files.specs.Named.{HoldsNamedImage};

use crate::keeping::check_folder;
use command_files::{Fault, Files, allow_file, named_config, named_image_in, out_of_limits};
use command_settings::Explore;
use elf_loader::Image;
use elf_symbols::Symbols;
use machine_types::Config;
use std::alloc::Global;

/// The machine and the program that a search is asked of.
pub(crate) struct Asked {
    pub config: Config,
    pub image: Image,
    /// The names that the image's file has.
    pub symbols: Symbols,
    /// The text that says which outcomes are allowed, where a file was named for it.
    pub allowed: Option<Vec<u8>>,
}

// A call of its own: derived, it would stand field by field in each function that owns one.
impl Drop for Asked {
    fn drop(self) {
        let Asked {
            config: _,
            image: _,
            symbols: _,
            allowed: _,
        } = self;
    }
}

impl Asked {
    /// Judges the machine's size, then reads the file that says what is allowed, if one was named, then the image, and
    /// looks whether the folder for scripts, if one was named, may have them.
    pub fn read<'a, F: Files>(
        alloc: Global,
        files: &mut F,
        wanted: Explore<'a>,
    ) -> Result<Asked, Fault<'a>>
        ensures config { IfOk result (λ asked. (inside : IsInside wanted.entry.machine) × (asked.config ≡ config_named wanted.entry.machine inside)) }
        ensures memory { IfOk result (λ asked. IsMemoryKib wanted.entry.machine.memory) }
        ensures image { IfOk result (λ asked. HoldsImage (F.held files.old) wanted.entry.raw wanted.entry.image.now wanted.entry.machine.memory asked.image) }
        ensures symbols { IfOk result (λ asked. HoldsNamedImage (F.held files.old) wanted.entry.raw wanted.entry.image.now wanted.entry.machine.memory asked.image asked.symbols) }
        ensures allowed { IfOk result (λ asked. IsAllowFile (F.held files.old) wanted.entry.allow (option_map (λ bytes. bytes.items) asked.allowed)) }
        ensures named { IfOk result (λ _. HasName wanted.entry.scripts) }
        ensures outside { IsOutside wanted.entry.machine → result ≡ Err Fault.Configuration }
        ensures told { IfErr result (IsFirstFault (F.held files.old) wanted.entry) }
        ensures stays { F.held files.new ≡ F.held files.old }
    {
        let Some(config) = named_config(wanted.machine) else {
            return Err(out_of_limits(alloc, files, wanted.machine));
        };
        let allowed = allow_file(alloc, files, wanted.allow)?;
        let named = named_image_in(
            alloc,
            files,
            wanted.raw,
            wanted.image,
            wanted.machine.memory,
        )?;
        check_folder(alloc, files, wanted, config)?;
        Ok(Asked {
            config,
            image: named.image,
            symbols: named.names,
            allowed,
        })
    }
}
