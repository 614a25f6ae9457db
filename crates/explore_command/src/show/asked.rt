//! What a search that shows words of memory is asked of.

ghost use Rattle.std.specs.Prelude.{◌≡◌, Err, IfErr, IfOk, option_map};
ghost use Rattle.command_files.specs.Sizes.{IsInside, IsOutside, config_named};
ghost use Rattle.elf_loader.specs.Size.{IsMemoryKib};
ghost use Rattle.command_files.specs.Allowing.{IsAllowFile};
ghost use Rattle.explore_command.specs.Asking.{HasProgram, HasProgramBy, IsAskingFault};
ghost use Rattle.explore_command.specs.Keeping.{HasName};
ghost use Rattle.explore_command.specs.Targets.{names_of};
ghost use Rattle.explorer.specs.Words.{CanShowEach};

use crate::keeping::check_folder;
use command_files::{Fault, Files, allow_file, named_config, named_image_in, out_of_limits};
use command_settings::Explore;
use elf_loader::Image;
use elf_symbols::Symbols;
use machine_types::Config;
use search_files::{Targets, targets_of};
use std::alloc::Global;

/// The machine and the program that a search is asked of, and the words of memory that it is to show.
#[derive(Drop)]
pub(crate) struct AskedWords<'a> {
    pub config: Config,
    pub image: Image,
    /// The names that the image's file has.
    pub symbols: Symbols,
    /// The text that says which outcomes are allowed, where a file was named for it.
    pub allowed: Option<Vec<u8>>,
    pub targets: Targets<'a>,
}

impl<'a> AskedWords<'a> {
    /// Judges the machine's size, then reads the file that says what is allowed, if one was named, then the image, looks
    /// for the words in it, and whether the folder for scripts, if one was named, may have them.
    pub fn read<F: Files>(
        alloc: Global,
        files: &mut F,
        wanted: Explore<'a>,
        words: &[&'a str],
    ) -> Result<AskedWords<'a>, Fault<'a>>
        ensures config { IfOk result (λ asked. (inside : IsInside wanted.entry.machine) × (asked.config ≡ config_named wanted.entry.machine inside)) }
        ensures memory { IfOk result (λ asked. IsMemoryKib wanted.entry.machine.memory) }
        ensures program { IfOk result (λ asked. HasProgram (F.held files.old) wanted.entry words.now asked.image asked.targets.addresses.items) }
        ensures symbols { IfOk result (λ asked. HasProgramBy (F.held files.old) wanted.entry words.now asked.image asked.symbols asked.targets.addresses.items) }
        ensures inside { IfOk result (λ asked. CanShowEach asked.image asked.targets.addresses.items) }
        ensures names { IfOk result (λ asked. asked.targets.names.items ≡ names_of words.now) }
        ensures allowed { IfOk result (λ asked. IsAllowFile (F.held files.old) wanted.entry.allow (option_map (λ bytes. bytes.items) asked.allowed)) }
        ensures named { IfOk result (λ _. HasName wanted.entry.scripts) }
        ensures outside { IsOutside wanted.entry.machine → result ≡ Err Fault.Configuration }
        ensures told { IfErr result (IsAskingFault (F.held files.old) wanted.entry words.now) }
        ensures stays { F.held files.new ≡ F.held files.old }
    {
        let Some(config) = named_config(wanted.machine) else {
            return Err(out_of_limits(alloc, files, wanted.machine));
        };
        let allowed = allow_file(alloc, files, wanted.allow)?;
        let named = named_image_in(
            alloc,
            files,
            wanted.raw,
            wanted.image,
            wanted.machine.memory,
        )?;
        let targets = targets_of(alloc, &named.image, &named.names, words)?;
        check_folder(alloc, files, wanted, config)?;
        Ok(AskedWords {
            config,
            image: named.image,
            symbols: named.names,
            allowed,
            targets,
        })
    }
}
