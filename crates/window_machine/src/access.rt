//! What an instruction asks of memory.
ghost use Rattle.std.specs.Prelude.{◌≡◌, ◌*◌, ◌%◌, IfErr, IfOk, IsTrue, None, Some};
ghost use Rattle.elf_loader.specs.Image.{word_at};
ghost use Rattle.hart.specs.Local.{next_entry};
ghost use Rattle.hart.specs.Run.{next_stop};
ghost use Rattle.rv32_decode.specs.Rows.{decoded};
ghost use Rattle.rv32_exec.specs.Actions.{action_of_access};
ghost use Rattle.rv32_exec.specs.Meaning.{access_of};
ghost use Rattle.rv32_exec.specs.Width.{byte_count};
ghost use Rattle.window_machine.specs.Acting.{is_of, is_placed};
ghost use Rattle.window_machine.specs.Lanes.{IsPlace, are_lanes_of, are_placed, first_lane, lanes_from};

use amo_unit::combine;
use elf_loader::Image;
use hart::{Hart, Retired, can_fetch};
use machine_types::MemoryModel;
use memory_model::{Kind, annotations};
use rv32_decode::{AmoOp, Annotations, Instr, decode};
use rv32_exec::{Action, Width, plan, stop};
use window_model::trace_operations::accesses::{reads, writes};

/// An access that a hart stands before: its bytes as lanes of the aligned word that they lie in.
#[derive(Clone, Copy)]
pub struct Access {
    pub instr: Instr,
    /// Its entry, without what it reads.
    pub entry: Retired,
    pub kind: Kind,
    pub word: u32,
    /// All bits of its bytes.
    pub lanes: u32,
    /// How many bits of the word stand below its bytes.
    pub shift: u32,
    /// The number that a store stores, or an AMO combines with what it reads.
    pub operand: u32,
    pub op: AmoOp,
    pub bits: Annotations,
    ghost asked: { IsTrue (is_of instr kind) },
    ghost bytes: { IsTrue (are_lanes_of kind lanes) },
    ghost place: { IsPlace word },
    ghost shifted: { shift ≡ 8 * first_lane lanes },
}

/// The lanes of an access's bytes.
fn lanes_at(address: u32, size: Width) -> u32
    requires { address % byte_count size ≡ 0 }
    ensures { result ≡ lanes_from (address % 4) (byte_count size) }
{
    let bytes = match size {
        Width::Byte => 0xff,
        Width::Half => 0xffff,
        Width::Word => u32::MAX,
    };
    bytes << (8 * (address % 4))
}

impl Access {
    ghost use Rattle.std.specs.Prelude.{◌+◌, ◌^◌, ℕ, IfSome, false, is_some, true, unwrap_or};
    ghost use Rattle.elf_loader.specs.Image.{Initial};
    ghost use Rattle.hart.specs.declared.retired.Retired.{Retired};
    ghost use Rattle.hart.specs.declared.state.Hart.{Hart};
    ghost use Rattle.hart.specs.Run.{is_step, number_read};
    ghost use Rattle.memory_model.specs.declared.operation.Kind.TheVariants as kind;
    ghost use Rattle.memory_model.specs.Items.{annotations_of};
    ghost use Rattle.memory_model.specs.Operations as operations;
    ghost use Rattle.rv32_exec.specs.Meaning as spec;
    ghost use Rattle.window_machine.specs.Asking as asking;
    ghost use Rattle.window_machine.specs.Asking.{IsNext, does, operation_by, retired_by};
    ghost use Rattle.window_machine.specs.Circles.{accesses, is_of_memory};
    ghost use Rattle.window_machine.specs.Lanes.{lane_count, number_in};

    fn new(kind: Kind, address: u32, size: Width, operand: u32, next: &Next) -> Access
        requires asked { IsTrue (is_of next.now.instr kind) }
        requires placed { IsTrue (are_placed address (byte_count size)) }
        requires whole { IsTrue (are_lanes_of kind (lanes_from (address % 4) (byte_count size))) }
        ensures next { (result.instr ≡ next.now.instr) × (result.entry ≡ next.now.entry) × (result.bits ≡ annotations_of next.now.instr) }
        ensures asks { (result.kind ≡ kind) × (result.operand ≡ operand) }
        ensures first { asking.first_byte result ≡ address }
        ensures count { asking.byte_count result ≡ byte_count size }
    {
        let lanes = lanes_at(address, size);
        Access {
            instr: next.instr,
            entry: next.entry,
            kind,
            word: address & !3,
            lanes,
            shift: 8 * (address % 4),
            operand,
            op: AmoOp::Swap,
            bits: annotations(&next.instr),
        }
    }

    /// The access that a hart stands before, if it runs and that comes next.
    pub fn before(image: &Image, hart: &Hart) -> Option<Access>
        ensures next { IfSome result (λ access. IsNext image.now hart.now access) }
        ensures none { result ≡ None → (entry : Retired) → is_step image.now hart.now entry ≡ true → accesses hart.now (decoded entry.word) ≡ false }
    {
        if !hart.status.is_running() {
            return None;
        }
        match next_of(image, hart) {
            Ok(next) => Access::of(&next),
            Err(_) => None,
        }
    }

    /// The access of what a hart does next, where it is one.
    pub(crate) fn of(next: &Next) -> Option<Access>
        ensures is_one { (access : spec.Access) → next.now.plan ≡ action_of_access access → is_some result ≡ is_of_memory access }
        ensures next { IfSome result (λ access. (access.instr ≡ next.now.instr) × (access.entry ≡ next.now.entry) × (access.bits ≡ annotations_of next.now.instr)) }
        ensures does { IfSome result (λ access. action_of_access (does access) ≡ next.now.plan) }
    {
        match next.plan {
            Action::Load { addr, size } => Some(Access::new(Kind::Load, addr, size, 0, next)),
            Action::Store { addr, size, value } => {
                Some(Access::new(Kind::Store, addr, size, value, next))
            }
            Action::Lr { addr } => Some(Access::new(Kind::Lr, addr, Width::Word, 0, next)),
            Action::Sc { addr, value } => {
                Some(Access::new(Kind::Sc, addr, Width::Word, value, next))
            }
            Action::Amo { addr, op, operand } => {
                let mut access = Access::new(Kind::Amo, addr, Width::Word, operand, next);
                access.op = op;
                Some(access)
            }
            Action::Private | Action::Fence | Action::Call | Action::Stop(_) => None,
        }
    }

    /// A number in its lanes, cut to their size.
    fn in_place(&self, number: u32) -> u32
        ensures cut { number_in self.now.lanes result ≡ number % 2 ^ (8 * lane_count self.now.lanes) }
        ensures whole { self.now.lanes ≡ lanes_from 0 4 → number_in self.now.lanes result ≡ number }
    {
        number << (self.shift % 32) & self.lanes
    }

    /// What it writes, in its lanes, where it reads this.
    pub(crate) fn written(&self, read: u32) -> u32
        ensures { (image : Initial) (hart : Hart) → IsNext image hart self.now → number_in self.now.lanes result ≡ unwrap_or (spec.value_written (does self.now) (number_read (retired_by self.now read))) 0 }
    {
        match self.kind {
            Kind::Load | Kind::Lr => 0,
            Kind::Store | Kind::Sc => self.in_place(self.operand),
            Kind::Amo => combine(self.op, read, self.operand),
        }
    }

    /// The entry by which it retires, where it reads this in its lanes.
    pub(crate) fn retired(&self, read: u32) -> Retired
        ensures { result ≡ retired_by self.now read }
    {
        let mut entry = self.entry;
        match self.kind {
            Kind::Load | Kind::Lr | Kind::Amo => {
                entry.loaded = Some((read & self.lanes) >> (self.shift % 32));
            }
            Kind::Sc => entry.sc_ok = Some(true),
            Kind::Store => {}
        }
        entry
    }

    /// Whether an operation of it has an acquire annotation under the model.
    pub(crate) fn acquires(&self, model: MemoryModel) -> bool
        ensures { (hart : Hart) (read : ℕ) → result ≡ operations.has_acquire model (operation_by hart self.now read) }
    {
        match model {
            MemoryModel::Rvwmo => self.bits.acquire,
            MemoryModel::Ztso => self.bits.acquire || reads(self.kind),
        }
    }

    /// Whether an operation of it has a release annotation under the model.
    pub(crate) fn releases(&self, model: MemoryModel) -> bool
        ensures { (hart : Hart) (read : ℕ) → result ≡ operations.has_release model (operation_by hart self.now read) }
    {
        match model {
            MemoryModel::Rvwmo => self.bits.release,
            MemoryModel::Ztso => self.bits.release || writes(self.kind),
        }
    }

    /// Whether the annotations of an operation of it are RCsc under the model.
    pub(crate) fn is_rcsc(&self, model: MemoryModel) -> bool
        ensures { (hart : Hart) (read : ℕ) → result ≡ operations.has_rcsc model (operation_by hart self.now read) }
    {
        let is_marked = self.bits.acquire || self.bits.release;
        match model {
            MemoryModel::Rvwmo => is_marked,
            MemoryModel::Ztso => is_marked || matches!(self.kind, Kind::Amo),
        }
    }
}

/// What a hart does next.
#[derive(Clone, Copy)]
pub(crate) struct Next {
    pub instr: Instr,
    pub plan: Action,
    /// Its entry, without what it reads.
    pub entry: Retired,
    ghost placed: { IsTrue (is_placed instr plan) },
}

/// What a running hart does next, or the code that it stops with.
pub(crate) fn next_of(image: &Image, hart: &Hart) -> Result<Next, u8>
    ensures instr { IfOk result (λ next. decoded (word_at image.now hart.now.pc) ≡ Some next.instr) }
    ensures goes_on { IfOk result (λ next. next_stop image.now hart.now ≡ None) }
    ensures stops { IfErr result (λ code. next_stop image.now hart.now ≡ Some code) }
    ensures plan { IfOk result (λ next. next.plan ≡ action_of_access (access_of next.instr hart.now.regs)) }
    ensures entry { IfOk result (λ next. next.entry ≡ next_entry image.now hart.now) }
{
    if !can_fetch(image, hart.pc) {
        return Err(stop::FETCH_OUTSIDE);
    }
    let word = image.word(hart.pc);
    let Some(instr) = decode(word) else {
        return Err(stop::ILLEGAL);
    };
    let plan = plan(&instr, hart.pc, &hart.regs, image.size());
    if let Action::Stop(code) = plan {
        return Err(code);
    }
    let entry = Retired {
        pc: hart.pc,
        word,
        loaded: None,
        sc_ok: None,
    };
    Ok(Next { instr, plan, entry })
}
