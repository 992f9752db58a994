// What the tokens that were read say together.
ghost use Rattle.std.specs.Prelude.{◌≡◌, ◌<◌, ◌++◌, [], ◌∷◌, false, None, length, IfOk, OnOk};
ghost use Rattle.lw_named_netlist.specs.Closing.{is_among};
ghost use Rattle.lw_verilog.specs.Readings.{cell_in, missing_fault};
ghost use Rattle.lw_verilog.specs.Statements.{gate_by, model_of, ties_in, wire_by};
ghost use Rattle.lw_verilog.specs.Tokens.{name_of};

use crate::gates::gate_of;
use crate::place::move_at;
use crate::rules::{
    cell_fault, cell_id, declared_fault, find_cell, missing_fault, name_fault, pin_fault,
    ports_fault,
};
use crate::{Kind, Place, Refusal, Task, VerilogKind};
use lw_genlib::Library;
use lw_named_netlist::{DraftGates, GateDraft, Signals, SpelledNames, Wire, Wires};
use lw_pool::{CellId, Name, Names};
use std::alloc::{AllocError, Global};
use std::mem;

/// What the tokens that were read say together.
#[derive(Drop)]
pub struct Contents {
    pub(crate) alloc: Global,
    pub(crate) place: Place,
    // The number of a cell: most often that of the instance which is open.
    pub(crate) hint: CellId,
    // Those of the statement that is open.
    pub(crate) names: SpelledNames,
    // The ports that are declared.
    pub(crate) declared: Signals,
    // The model, and then the ports that are listed.
    pub(crate) header: SpelledNames,
    pub(crate) inputs: Names,
    pub(crate) outputs: Names,
    pub(crate) gates: DraftGates,
    pub(crate) wires: Wires,
}

// A name without the backslash before it.
fn name_of(bytes: &[u8]) -> &[u8]
    ensures { result.now ≡ name_of bytes.now }
{
    match bytes {
        [b'\\', name @ ..] => name,
        _ => bytes,
    }
}

// The name of the model, by the header.
fn model_of(alloc: Global, header: &SpelledNames) -> Result<Name, AllocError>
    ensures { IfOk result (λ model. model ≡ model_of header.now) }
{
    if header.len() == 0 {
        return Name::from_slice(alloc, b"unnamed");
    }
    Name::from_slice(alloc, header.get(0))
}

// Appends copies of names.
fn append(alloc: Global, names: &mut Names, more: &SpelledNames) -> Result<(), AllocError>
    ensures { OnOk result (names.new ≡ names.old ++ more.now) }
{
    for place in 0..more.len() {
        names.push(Name::from_slice(alloc, more.get(place))?)?;
    }
    Ok(())
}

// Appends names to those of the header.
fn append_header(header: &mut SpelledNames, more: &SpelledNames) -> Result<(), AllocError>
    ensures { OnOk result (header.new ≡ header.old ++ more.now) }
{
    for place in 0..more.len() {
        header.push(more.get(place))?;
    }
    Ok(())
}

// Adds a name that is not there.
fn declare(declared: &mut Signals, name: &[u8]) -> Result<(), AllocError>
    requires some { 0 < length name.now }
    requires new { is_among declared.old name.now ≡ false }
    ensures { OnOk result (declared.new ≡ declared.old ++ name.now ∷ []) }
{
    // The name is not there, so it is always added.
    let _fresh = declared.add(name)?;
    Ok(())
}

// Appends the wire of an assignment of these names.
fn push_wire(alloc: Global, wires: &mut Wires, names: &SpelledNames) -> Result<(), AllocError>
    ensures { OnOk result (wires.new ≡ wires.old ++ wire_by names.now) }
{
    if names.len() < 2 {
        return Ok(());
    }
    let to = Name::from_slice(alloc, names.get(0))?;
    let from = Name::from_slice(alloc, names.get(1))?;
    wires.push(Wire { from, to })?;
    Ok(())
}

// The number of the cell with a name, or this one.
fn near(lib: &Library, hint: CellId, name: &[u8]) -> CellId {
    match find_cell(lib, hint, name) {
        Some(id) => id,
        None => hint,
    }
}

// Appends the gate of an instance of these names.
#[tactic(auto, using(crate::proofs::Finding::cell_within))]
fn push_gate(
    alloc: Global,
    lib: &Library,
    hint: CellId,
    gates: &mut DraftGates,
    names: &SpelledNames,
) -> Result<(), AllocError>
    requires { missing_fault (cell_in lib.now names.now) (ties_in names.now) ≡ None }
    ensures { OnOk result (gates.new ≡ gates.old ++ gate_by lib.now names.now) }
{
    if let Some(id) = cell_id(lib, hint, names) {
        let gate = gate_of(alloc, lib, id, names)?;
        gates.push_spelled(gate)?;
    }
    Ok(())
}

impl Contents {
    ghost use Rattle.std.specs.Prelude.{◌≡◌, ◌<◌, ◌++◌, List, None, length, IfOk, OnOk, true};
    ghost use Rattle.std.specs.Prelude.{false};
    ghost use Rattle.lw_genlib.specs.Cells.{CellParts};
    ghost use Rattle.lw_verilog.specs.Tokens.{is_name, name_of};
    ghost use Rattle.lw_verilog.specs.declared.place.Task.TheVariants as tasks;
    ghost use Rattle.lw_verilog.specs.Grammar.{move_at};
    ghost use Rattle.lw_verilog.specs.Keeping.{draft_in, fault_in, Acts, Adds, Keeps, KeepsBody};
    ghost use Rattle.lw_verilog.specs.Keeping.{MayEnd, TakesToken, TellsFault};
    ghost use Rattle.lw_verilog.specs.Readings.{Reading, is_done, is_word, moved_on, nothing_read};
    ghost use Rattle.lw_verilog.specs.Readings.{piece_fault, piece_read, token_fault};

    pub(crate) fn new(alloc: Global) -> Result<Self, AllocError>
        ensures { IfOk result (λ contents. (cells : List CellParts) →
            Keeps cells contents nothing_read) }
    {
        Ok(Contents {
            alloc,
            place: Place::Begin,
            hint: CellId(0),
            names: SpelledNames::new(alloc),
            declared: Signals::none(alloc)?,
            header: SpelledNames::new(alloc),
            inputs: Names::new(alloc),
            outputs: Names::new(alloc),
            gates: DraftGates::new(alloc),
            wires: Wires::new(alloc),
        })
    }

    pub(crate) fn is_done(&self) -> bool
        ensures { result ≡ is_done self.now.place }
    {
        matches!(self.place, Place::Done)
    }

    // The rule that a token breaks which may stand here.
    #[tactic(auto, unfolding(crate::specs::Readings::rule_fault))]
    fn fault(
        &self,
        task: Task,
        name: &[u8],
        lib: &Library,
    ) -> Result<Option<VerilogKind>, AllocError>
        requires { task ≡ tasks.Declare → 0 < length name.now }
        ensures { IfOk result (λ fault. fault ≡ fault_in lib.now self.now task name.now) }
    {
        match task {
            Task::Word => Ok(name_fault(name)),
            Task::Declare => Ok(declared_fault(&self.declared, name)),
            Task::Cell => Ok(cell_fault(lib, self.hint, name)),
            Task::Pin => Ok(pin_fault(lib, self.hint, &self.names, name)),
            Task::Instance => Ok(missing_fault(lib, self.hint, &self.names)),
            Task::Finish => ports_fault(self.alloc, &self.header, &self.declared),
            _ => Ok(None),
        }
    }

    // Adds the names of the statement to those of the header, without a copy where there are none.
    fn add_header(&mut self) -> Result<(), AllocError>
        ensures header { OnOk result (self.new.header ≡ self.old.header ++ self.old.names) }
        ensures body { KeepsBody self.old self.new }
    {
        if self.header.len() > 0 {
            return append_header(&mut self.header, &self.names);
        }
        mem::swap(&mut self.header, &mut self.names);
        Ok(())
    }

    // Adds what a statement says at its end. Its names may be lost; the rest stays.
    fn add(&mut self, task: Task, lib: &Library) -> Result<(), AllocError>
        requires { MayEnd lib.now self.old task }
        ensures adds { OnOk result (Adds lib.now task self.old.names self.old self.new) }
        ensures declared { self.new.declared ≡ self.old.declared }
    {
        match task {
            Task::Header => self.add_header(),
            Task::Inputs => append(self.alloc, &mut self.inputs, &self.names),
            Task::Outputs => append(self.alloc, &mut self.outputs, &self.names),
            Task::Assignment => push_wire(self.alloc, &mut self.wires, &self.names),
            Task::Instance => push_gate(self.alloc, lib, self.hint, &mut self.gates, &self.names),
            _ => Ok(()),
        }
    }

    // Ends a statement. The rest stays.
    fn end(&mut self, task: Task, lib: &Library) -> Result<(), AllocError>
        requires { MayEnd lib.now self.old task }
        ensures adds { OnOk result (Adds lib.now task self.old.names self.old self.new) }
        ensures names { OnOk result (self.new.names ≡ []) }
        ensures declared { self.new.declared ≡ self.old.declared }
    {
        self.add(task, lib)?;
        self.names.clear();
        Ok(())
    }

    // Does the task of a token.
    fn act(&mut self, task: Task, name: &[u8], lib: &Library) -> Result<(), AllocError>
        requires some { is_word task ≡ true → 0 < length name.now }
        requires rule { fault_in lib.now self.old task name.now ≡ None }
        ensures { OnOk result (Acts lib.now task name.now self.old self.new) }
    {
        match task {
            Task::Skip => Ok(()),
            Task::Word | Task::Pin => self.names.push(name),
            Task::Cell => {
                self.hint = near(lib, self.hint, name);
                self.names.push(name)
            }
            Task::Declare => {
                declare(&mut self.declared, name)?;
                self.names.push(name)
            }
            _ => self.end(task, lib),
        }
    }

    /// Takes a token of this kind and this name, or tells the first rule that it breaks.
    pub(crate) fn take(&mut self, kind: Kind, name: &[u8], lib: &Library) -> Result<(), Refusal>
        requires { is_name kind ≡ true → 0 < length name.now }
        ensures fault { (r : Reading) → Keeps lib.now self.old r →
            TellsFault result (token_fault lib.now r kind name.now) }
        ensures taken { OnOk result (TakesToken lib.now kind
            (λ r. moved_on r name.now (move_at r.place kind)) self.old self.new) }
    {
        if matches!(kind, Kind::Strange) {
            return Err(Refusal::Broken(VerilogKind::BadByte));
        }
        let Some(step) = move_at(self.place, kind) else {
            return Err(Refusal::Broken(VerilogKind::Expected));
        };
        if let Some(fault) = self.fault(step.task, name, lib)? {
            return Err(Refusal::Broken(fault));
        }
        self.act(step.task, name, lib)?;
        self.place = step.next;
        Ok(())
    }

    /// Takes a piece of this kind and these bytes, or tells the first rule that it breaks.
    pub(crate) fn read(&mut self, kind: Kind, bytes: &[u8], lib: &Library) -> Result<(), Refusal>
        requires { is_name kind ≡ true → 0 < length (name_of bytes.now) }
        ensures fault { (r : Reading) → Keeps lib.now self.old r →
            TellsFault result (piece_fault lib.now r kind (name_of bytes.now)) }
        ensures taken { OnOk result (TakesToken lib.now kind
            (λ r. piece_read r kind (name_of bytes.now)) self.old self.new) }
    {
        match kind {
            Kind::Gap => Ok(()),
            _ => self.take(kind, name_of(bytes), lib),
        }
    }

    /// The netlist by names, of which nothing is left here.
    pub(crate) fn draft(&mut self, alloc: Global) -> Result<GateDraft, AllocError>
        ensures { IfOk result (λ draft. draft ≡ draft_in self.old) }
    {
        let model = model_of(alloc, &self.header)?;
        Ok(GateDraft {
            model,
            inputs: mem::replace(&mut self.inputs, Names::new(alloc)),
            outputs: mem::replace(&mut self.outputs, Names::new(alloc)),
            gates: mem::replace(&mut self.gates, DraftGates::new(alloc)),
            wires: mem::replace(&mut self.wires, Wires::new(alloc)),
        })
    }
}
