//! `rvtl fences`: which of a program's orderings it needs, or which it lacks, is sought and told.

ghost use Rattle.std.specs.Prelude.{◌≡◌, ◌≢◌, ◌⊎◌, ◌<◌, ◌≤◌, Err, IfErr, IfOk, IfSome, List, None, OnErr, OnOk, Some, option_map};
ghost use Rattle.std.specs.Io.KnownBytes.{Appends};
ghost use Rattle.std.specs.List.{list_any};
ghost use Rattle.command_files.specs.Contents.{HoldsBytes};
ghost use Rattle.command_files.specs.Sizes.{IsInside, IsOutside, config_named};
ghost use Rattle.elf_loader.specs.Size.{IsMemoryKib};
ghost use Rattle.fence_audit.specs.Searches.{IsReady};
ghost use Rattle.fence_audit.specs.Words.{CanShowEach};
ghost use Rattle.fences_command.specs.Fencing.{AuditHas, HadMemory, IsAuditTold, IsFencesFault, IsKeepingFault, IsOfFile, IsSought, judgement_of, lacked_by_any, search_lacked, told_text, world_of};
ghost use Rattle.fences_command.specs.Keeping.{IsProgramKept, IsUnread};
ghost use Rattle.fences_command.specs.Witnesses.{AllSpare, AreReadable, AreShownFor, IsFencesFile};
ghost use Rattle.search_files.specs.Faults.{ComesBeforeScripts, LeavesPart};
ghost use Rattle.search_files.specs.Folders.{HasName, SparesOthers};
ghost use Rattle.search_files.specs.Targets.{names_of};
ghost use Rattle.search_files.specs.WordName.{WordName};
ghost use Rattle.text_fields.specs.Writing.{Begins};

use crate::keeping::{check_target, keep_program};
use crate::needed_runs::{check_folder, keep_witnesses};
use crate::program::program_in;
use crate::telling::Telling;
use architecture_outcomes::Architecture;
use command_files::{Fault, Files, Judgement, allow_file, named_config, out_of_limits};
use command_settings::{Audit, Fences, Subject};
use elf_loader::Image;
use elf_symbols::Symbols;
use fence_audit::allowed_outcomes::Allowed;
use fence_audit::{
    Allowance, Question, Search, Steps, World, audit_allowed, audit_program, lacked_memory,
    lacking_text, text_of,
};
use machine_types::Config;
use progress_line::Progress;
use search_files::exploration_text::WordName;
use search_files::{Targets, targets_of};
use std::alloc::{AllocError, Global};
use std::io::Write;
use std::thread::{self, Threads};
use text_fields::{Piece, put_pieces};

/// No more searches go side by side.
const MOST_THREADS: usize = 64;

/// Judges the machine's size, reads what is allowed, if a file is named for it, then the image, looks for the words of
/// memory that are to be shown, and whether the file can be made that the program is to be written into, and the folder
/// may have runs, finds out which of its orderings it needs, or which it lacks, prints that on `out`, writes the program
/// with those that are enough, and runs that show why others are needed. While it searches, `progress` is told how far it
/// is. Where a search ended for want of memory, and all that was found is allowed, the error is that, behind all of this.
pub fn fences_files<'a, R: Threads + Sync, F: Files, O: Write, P: Progress + Sync>(
    rt: &R,
    alloc: Global,
    files: &mut F,
    wanted: &Audit<'a>,
    out: &mut O,
    progress: &P,
) -> Result<Judgement, Fault<'a>>
    requires room { 0 < wanted.now.fences.states }
    ensures audited { IfOk result (λ judgement. IsAuditTold (F.held files.old) (F.held files.new) wanted.now judgement (O.contents out.old) (O.contents out.new)) }
    ensures unfinished { IfErr result (λ fault. LeavesPart fault (O.contents out.old) (O.contents out.new) (AuditHas (F.held files.old) wanted.now)) }
    ensures outside { IsOutside wanted.now.fences.machine → result ≡ Err Fault.Configuration }
    ensures told { IfErr result (IsFencesFault (F.held files.old) wanted.now) }
    ensures spared { SparesOthers (IsFencesFile wanted.now.fences) (F.held files.old) (F.held files.new) }
    ensures untouched { IfErr result (λ fault. ComesBeforeScripts fault → F.held files.new ≡ F.held files.old) }
{
    let told = audit_in(rt, alloc, files, wanted, progress)?;
    print(alloc, &told, out)?;
    keep(alloc, files, wanted.fences, &told)?;
    check_memory(&told.allowance)?;
    Ok(judgement_of(&told.allowance))
}

/// It is allowed unless an outcome of the program as it is isn't.
fn judgement_of(allowance: &Allowance) -> Judgement
    ensures { result ≡ judgement_of allowance.now }
{
    match allowance {
        Allowance::Kept(_) => Judgement::Allowed,
        Allowance::Broken(_) => Judgement::NotAllowed,
    }
}

/// Refuses to call all allowed where a search ended for want of memory.
fn check_memory<'a>(allowance: &Allowance) -> Result<(), Fault<'a>>
    ensures whole { OnOk result (HadMemory allowance.now) }
    ensures told { IfErr result (λ fault. fault ≡ Fault.OutOfMemory) }
{
    match allowance {
        Allowance::Kept(audit) if lacked_by_any(&audit.known, &audit.searches) => {
            Err(Fault::OutOfMemory)
        }
        Allowance::Kept(_) | Allowance::Broken(_) => Ok(()),
    }
}

/// Whether one of these ended for want of memory.
fn lacked_by_any(known: &Architecture, searches: &[Search]) -> bool
    ensures { result ≡ lacked_by_any known.now searches.now }
{
    lacked_memory(known) || any_lacked(searches)
}

fn any_lacked(searches: &[Search]) -> bool
    ensures { result ≡ list_any search_lacked searches.now }
{
    searches.iter().any(|search| search_lacked(search))
}

fn search_lacked(search: &Search) -> bool
    ensures { result ≡ search_lacked search.now }
{
    lacked_memory(&search.found)
}

/// What an image needs or lacks, what lines call the words of memory, the symbols of its file, and the bytes there; and the
/// machine that is meant.
#[derive(Drop)]
struct NamedAudit<'a> {
    allowance: Allowance,
    names: Vec<WordName<'a>>,
    symbols: Symbols,
    image: Image,
    file: Vec<u8>,
    config: Config,
}

/// What the image in the file needs or lacks.
fn audit_in<'a, R: Threads + Sync, F: Files, P: Progress + Sync>(
    rt: &R,
    alloc: Global,
    files: &mut F,
    wanted: &Audit<'a>,
    progress: &P,
) -> Result<NamedAudit<'a>, Fault<'a>>
    requires room { 0 < wanted.now.fences.states }
    ensures of_file { IfOk result (λ told. IsOfFile (F.held files.old) wanted.now told.symbols told.allowance told.image) }
    ensures bytes { IfOk result (λ told. HoldsBytes (F.held files.old) wanted.now.fences.image.now told.file.items) }
    ensures unread { OnOk result (IfSome wanted.now.fences.write (λ name. IsUnread wanted.now.fences name.now)) }
    ensures named { OnOk result (HasName wanted.now.fences.scripts) }
    ensures spare { IfOk result (λ told. IfSome wanted.now.fences.scripts (λ folder. AllSpare wanted.now.fences told.image folder.now)) }
    ensures readable { IfOk result (λ told. AreReadable told.allowance) }
    ensures config { IfOk result (λ told. (inside : IsInside wanted.now.fences.machine) × (told.config ≡ config_named wanted.now.fences.machine inside)) }
    ensures memory { OnOk result (IsMemoryKib wanted.now.fences.machine.memory) }
    ensures names { IfOk result (λ told. told.names.items ≡ names_of wanted.now.words.items) }
    ensures outside { IsOutside wanted.now.fences.machine → result ≡ Err Fault.Configuration }
    ensures told { IfErr result (IsFencesFault (F.held files.old) wanted.now) }
    ensures unprinted { IfErr result (λ fault. fault ≢ Fault.CannotWrite) }
    ensures spared { F.held files.new ≡ F.held files.old }
{
    let fences = wanted.fences;
    let Some(config) = named_config(fences.machine) else {
        return Err(out_of_limits(alloc, files, fences.machine));
    };
    let memory = fences.machine.memory;
    let allowed = allow_file(alloc, files, fences.allow)?;
    let program = program_in(alloc, files, fences.raw, fences.image, memory)?;
    let image = &program.image;
    let targets = targets_of(alloc, image, &program.names, &wanted.words)?;
    check_target(alloc, files, fences)?;
    check_folder(alloc, files, fences, config, image)?;
    let found = audit_of(
        rt, alloc, image, config, fences, &targets, &allowed, progress,
    );
    let Ok(allowance) = found else {
        return Err(Fault::OutOfMemory);
    };
    // Called for its clause that the bytes are an image's.
    let _entry = image.entry();
    Ok(NamedAudit {
        allowance,
        names: targets.names,
        symbols: program.names,
        image: program.image,
        file: program.bytes,
        config,
    })
}

/// Writes the program with the orderings that are enough, and the runs that show why others are needed, where files are
/// named for them.
fn keep<'a, F: Files>(
    alloc: Global,
    files: &mut F,
    wanted: Fences<'a>,
    told: &NamedAudit<'_>,
) -> Result<(), Fault<'a>>
    requires memory { IsMemoryKib wanted.machine.memory }
    requires readable { AreReadable told.now.allowance }
    ensures program { OnOk result (IsProgramKept (F.held files.old) (F.held files.new) wanted.entry told.now.image told.now.file.items told.now.allowance wanted.entry.write) }
    ensures shown { OnOk result (AreShownFor (F.held files.new) wanted.entry told.now.config told.now.image told.now.file.items told.now.allowance wanted.entry.scripts) }
    ensures told { IfErr result (IsKeepingFault wanted.entry) }
    ensures spared { SparesOthers (IsFencesFile wanted.entry) (F.held files.old) (F.held files.new) }
{
    let NamedAudit {
        allowance,
        image,
        file,
        config,
        ..
    } = told;
    keep_program(alloc, files, wanted, image, file, allowance)?;
    keep_witnesses(alloc, files, wanted, *config, image, file, allowance)
}

/// How many searches go side by side: as many as there are processors, as far as that can be told, where no number is asked
/// for.
fn threads_of<R: Threads>(rt: &R, wanted: u32) -> usize
    ensures { result ≤ MOST_THREADS }
{
    let count = if 0 < wanted {
        wanted as usize
    } else {
        thread::available_parallelism(rt).map_or(1, |count| count.get())
    };
    count.min(MOST_THREADS)
}

fn world_of(subject: Subject) -> World
    ensures { result ≡ world_of subject }
{
    match subject {
        Subject::Model => World::Model,
        Subject::Machine => World::Machine,
    }
}

/// What the image needs or lacks.
fn audit_of<R: Threads + Sync, P: Progress + Sync>(
    rt: &R,
    alloc: Global,
    image: &Image,
    config: Config,
    wanted: Fences<'_>,
    targets: &Targets<'_>,
    allowed: &Option<Vec<u8>>,
    progress: &P,
) -> Result<Allowance, AllocError>
    requires room { 0 < wanted.states }
    requires words { CanShowEach image.now targets.now.addresses.items }
    ensures { IfOk result (IsSought (world_of wanted.entry.subject) image.now config targets.now.addresses.items wanted.entry.window wanted.entry.states targets.now.names.items (option_map (λ bytes. bytes.items) allowed.now)) }
{
    let question = Question {
        image,
        config,
        addresses: &targets.addresses,
        window: wanted.window,
        limit: wanted.states,
        world: world_of(wanted.subject),
        threads: threads_of(rt, wanted.threads),
    };
    let telling = Telling::new(progress);
    let found = sought(rt, alloc, question, &targets.names, allowed, &telling);
    progress.end();
    found
}

fn sought<R: Threads + Sync, W: Steps + Sync>(
    rt: &R,
    alloc: Global,
    question: Question<'_>,
    names: &[WordName<'_>],
    allowed: &Option<Vec<u8>>,
    watch: &W,
) -> Result<Allowance, AllocError>
    requires { IsReady question }
    ensures { IfOk result (IsSought question.entry.world question.entry.image.now question.entry.config question.entry.addresses.now question.entry.window question.entry.limit names.now (option_map (λ bytes. bytes.items) allowed.now)) }
{
    match allowed {
        Some(text) => sought_within(rt, alloc, question, names, text, watch),
        None => sought_as_it_is(rt, alloc, question, watch),
    }
}

/// What the image needs for the outcomes that a text allows, or lacks.
fn sought_within<R: Threads + Sync, W: Steps + Sync>(
    rt: &R,
    alloc: Global,
    question: Question<'_>,
    names: &[WordName<'_>],
    text: &[u8],
    watch: &W,
) -> Result<Allowance, AllocError>
    requires { IsReady question }
    ensures { IfOk result (IsSought question.entry.world question.entry.image.now question.entry.config question.entry.addresses.now question.entry.window question.entry.limit names.now (Some text.now)) }
{
    let allowed = Allowed::new(alloc, text)?;
    audit_allowed(rt, alloc, question, names, &allowed, watch)
}

/// What the image needs for its own outcomes.
fn sought_as_it_is<R: Threads + Sync, W: Steps + Sync>(
    rt: &R,
    alloc: Global,
    question: Question<'_>,
    watch: &W,
) -> Result<Allowance, AllocError>
    requires { IsReady question }
    ensures { (names : List WordName) → IfOk result (IsSought question.entry.world question.entry.image.now question.entry.config question.entry.addresses.now question.entry.window question.entry.limit names None) }
{
    let audit = audit_program(rt, alloc, question, watch)?;
    Ok(Allowance::Kept(audit))
}

fn print<'a, O: Write>(alloc: Global, told: &NamedAudit<'_>, out: &mut O) -> Result<(), Fault<'a>>
    ensures printed { OnOk result (Appends (O.contents out.old) (O.contents out.new) (told_text told.now.names.items told.now.symbols told.now.allowance)) }
    ensures told { IfErr result (λ fault. (fault ≡ Fault.CannotWrite) ⊎ (fault ≡ Fault.OutOfMemory)) }
    ensures begun { OnErr result (Begins (O.contents out.old) (O.contents out.new) (told_text told.now.names.items told.now.symbols told.now.allowance)) }
{
    let Ok(text) = told_text(alloc, &told.names, &told.symbols, &told.allowance) else {
        return Err(Fault::OutOfMemory);
    };
    if let Err(error) = put_pieces(out, &[Piece::Text(&text)]) {
        return Err(Fault::writing(error));
    }
    match out.flush() {
        Ok(()) => Ok(()),
        Err(error) => Err(Fault::writing(error)),
    }
}

fn told_text(
    alloc: Global,
    names: &[WordName<'_>],
    symbols: &Symbols,
    allowance: &Allowance,
) -> Result<Vec<u8>, AllocError>
    ensures { IfOk result (λ bytes. bytes.items ≡ told_text names.now symbols.now allowance.now) }
{
    match allowance {
        Allowance::Kept(audit) => text_of(alloc, names, symbols, audit),
        Allowance::Broken(missing) => lacking_text(alloc, names, symbols, missing),
    }
}
