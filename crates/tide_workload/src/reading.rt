//! Reading a workload from bytes: the order in which faults are looked for.
ghost use Rattle.std.specs.Prelude.{◌≡◌, ◌≢◌, ◌≤◌, All, IfOk, IfErr, Ok, Err, length, map};
ghost use Rattle.toml.specs.Errors.{IsMemory};
ghost use Rattle.toml.specs.View.{view, table_view};
ghost use Rattle.tide_workload.specs.Reading.{document_or, load_with, settings_of, work_of, reads_workload};
ghost use Rattle.tide_workload.specs.Scripts.{text_or_none};
ghost use Rattle.tide_workload.specs.Steps.{Gives};
ghost use Rattle.tide_text.specs.work.Work.{AreKeys, ArePaths, AreSettings};

use crate::fields::{five_of_field, five_or_zeros, has_only, number_of_field, number_or_zero};
use crate::scripts::{mutators_of, scripts_of, texts_of_each};
use crate::shapes::declared_in;
use std::alloc::Global;
use tide_shape::Paths;
use tide_text::{Fault, Field, Keys, MAX_MUTATORS, MAX_OPS, OpArguments, Settings, Workload};
use toml::{Table, Value};

/// How many bytes a workload may have.
pub const MAX_BYTES: usize = 4_194_304;

/// The fields that a document may have.
const DOCUMENT_FIELDS: [Field; 10] = [
    Field::Registers,
    Field::Strong,
    Field::Weak,
    Field::Blocks,
    Field::Arrays,
    Field::Period,
    Field::Headroom,
    Field::Trigger,
    Field::Shapes,
    Field::Mutator,
];

/// Reads the workload that bytes are, or tells the first fault in them.
///
/// The faults are looked for in this order: that there are too many bytes, that they are no document, the fields
/// from `registers` to `mutator` in the order of `Field`, other names, the table of each mutator, and then the text of
/// each operation. Want of memory may come at any point.
#[tactic(auto, unfolding(crate::specs::Reading::reads_workload))]
pub fn read(alloc: Global, bytes: &[u8]) -> Result<Workload, Fault>
    ensures ok { IfOk result (λ load. reads_workload bytes.now ≡ Ok load) }
    ensures refused { IfErr result (λ fault. fault ≢ Fault.Memory → reads_workload bytes.now ≡ Err fault) }
{
    if bytes.len() > MAX_BYTES {
        return Err(Fault::TooLong);
    }
    let document = document_of(alloc, bytes)?;
    work_of(alloc, &document)
}

/// The document that bytes are.
fn document_of(alloc: Global, bytes: &[u8]) -> Result<Table, Fault>
    ensures { Gives table_view result (document_or bytes.now) }
{
    let text = match std::str::from_utf8(bytes) {
        Ok(text) => text,
        Err(_) => return Err(Fault::NotToml),
    };
    match toml::table_from_str(alloc, text) {
        Ok(document) => Ok(document),
        Err(error) => Err(fault_of(&error)),
    }
}

/// What a document's fault is: want of memory, or that there is no document.
fn fault_of(error: &toml::de::Error) -> Fault
    ensures memory { IsMemory error.now → result ≡ Fault.Memory }
    ensures other { ¬ IsMemory error.now → result ≡ Fault.NotToml }
{
    if error.is_memory() {
        Fault::Memory
    } else {
        Fault::NotToml
    }
}

/// The settings of a document, its fields up to `trigger`.
#[tactic(auto, unfolding(crate::specs::Reading::settings_of))]
fn settings_of(document: &Table) -> Result<Settings, Fault>
    ensures value { result ≡ settings_of (table_view document.now) }
    ensures within { IfOk result AreSettings }
{
    let registers = number_of_field(document, Field::Registers, 1, 16)?;
    let strong = number_or_zero(document, Field::Strong, 256)?;
    let weak = number_or_zero(document, Field::Weak, 256)?;
    let blocks = five_of_field(document, Field::Blocks, 64)?;
    let arrays = five_or_zeros(document, Field::Arrays, 64)?;
    let period = number_of_field(document, Field::Period, 4, 65_536)?;
    let headroom = number_of_field(document, Field::Headroom, 1, 1_000_000)?;
    let trigger = number_or_zero(document, Field::Trigger, 1_000_000)?;
    Ok(Settings {
        registers: registers as u8,
        strong: strong as u16,
        weak: weak as u16,
        blocks,
        arrays,
        period,
        headroom,
        trigger,
    })
}

/// The workload with these settings, keys, paths and texts of operations.
fn load_of(
    alloc: Global,
    settings: Settings,
    keys: Keys,
    paths: Paths,
    texts: &[&[Value]],
) -> Result<Workload, Fault>
    requires settings { AreSettings settings }
    requires keys { AreKeys keys }
    requires paths { ArePaths (length keys) paths }
    requires some { 1 ≤ length texts.now }
    requires few { length texts.now ≤ MAX_MUTATORS }
    requires short { All (λ texts. length texts.now ≤ MAX_OPS) texts.now }
    ensures { Gives (λ load. load) result
        (load_with settings keys paths (map (λ texts. map (λ value. text_or_none (view value)) texts.now) texts.now)) }
{
    let limits = OpArguments::new(&settings, &keys);
    let scripts = scripts_of(alloc, &limits, texts)?;
    Ok(Workload::new(settings, keys, paths, scripts))
}

/// The workload that a document is.
#[tactic(auto, unfolding(crate::specs::Reading::work_of))]
fn work_of(alloc: Global, document: &Table) -> Result<Workload, Fault>
    ensures { Gives (λ load. load) result (work_of (table_view document.now)) }
{
    let settings = settings_of(document)?;
    let (keys, paths) = declared_in(alloc, document)?;
    let mutators = mutators_of(alloc, document)?;
    has_only(document, &DOCUMENT_FIELDS)?;
    let texts = texts_of_each(alloc, mutators.as_slice())?;
    load_of(alloc, settings, keys, paths, texts.as_slice())
}
