//! What a run takes of its workload.
ghost use Rattle.std.specs.Prelude.{◌≡◌, ◌≤◌, ◌++◌, ◌∷◌, [], None, length, map, All, IfOk, OnOk};
ghost use Rattle.tide_shape.specs.Lists.{lists_of};
ghost use Rattle.tide_shape.specs.Shapes.{first_double, shapes_of_paths, IsPath};
ghost use Rattle.tide_workload.specs.Words.{AreSettings};
ghost use Rattle.tide_run.specs.running.Runs.{layout_of_work, layout_with, AreScripts};

use std::alloc::Global;
use tide_layout::Layout;
use tide_model::{Memory, Op};
use tide_periods::Pacing;
use tide_shape::{Paths, Shapes, ShapesRefused};
use tide_workload::{Settings, Workload};

/// One more at the end of a list.
fn append<T: Drop>(list: &mut Vec<T>, item: T) -> Result<(), Memory>
    ensures { OnOk result (list.new.items ≡ list.old.items ++ item ∷ []) }
{
    list.push(item)?;
    Ok(())
}

/// The layout of a store with these settings, for so many mutators and visitors.
fn layout_with(settings: Settings, mutators: u32, visitors: u8) -> Layout
    requires settings { AreSettings settings }
    requires mutators { mutators ≤ 16 }
    requires visitors { visitors ≤ 8 }
    ensures { result ≡ layout_with settings mutators visitors }
{
    Layout::new(
        settings.blocks,
        settings.arrays,
        settings.registers,
        settings.strong,
        settings.weak,
        mutators as u8,
        visitors,
    )
}

/// The layout of the store that a workload asks for, with so many visitors.
pub(crate) fn layout_of(load: &Workload, visitors: u8) -> Layout
    requires { visitors ≤ 8 }
    ensures { result ≡ layout_of_work load.now visitors }
{
    layout_with(load.settings(), load.mutators(), visitors)
}

/// The shapes of declared paths, none of which names a key twice.
pub(crate) fn shapes_from(alloc: Global, paths: &Paths) -> Result<Shapes, Memory>
    requires few { length paths.now ≤ 64 }
    requires sized { All IsPath paths.now }
    requires distinct { first_double paths.now ≡ None }
    ensures { IfOk result (λ shapes. lists_of shapes ≡ shapes_of_paths paths.now) }
{
    match Shapes::new(alloc, paths) {
        Ok(shapes) => Ok(shapes),
        Err(ShapesRefused::Memory) => Err(Memory),
        Err(ShapesRefused::DoubleKey { .. }) => unreachable!(),
    }
}

/// A copy of some bytes.
fn copied(alloc: Global, bytes: &[u8]) -> Result<Vec<u8>, Memory>
    ensures { IfOk result (λ copy. copy.items ≡ bytes.now) }
{
    Ok(bytes.to_vec(alloc)?)
}

/// The names of a workload's property keys, by number.
pub(crate) fn names_of(alloc: Global, load: &Workload) -> Result<Vec<Vec<u8>>, Memory>
    ensures { IfOk result (λ names. map (λ name. name.items) names.items ≡ load.now.keys) }
{
    let mut names = Vec::new(alloc);
    for key in 0..load.key_count() {
        let name = copied(alloc, load.key_name(key))?;
        append(&mut names, name)?;
    }
    Ok(names)
}

/// A copy of some operations.
fn copied_ops(alloc: Global, ops: &[Op]) -> Result<Vec<Op>, Memory>
    ensures { IfOk result (λ copy. copy.items ≡ ops.now) }
{
    Ok(ops.to_vec(alloc)?)
}

/// A copy of each mutator's operations.
pub(crate) fn copied_scripts(alloc: Global, load: &Workload) -> Result<Vec<Vec<Op>>, Memory>
    ensures { IfOk result (λ scripts. AreScripts load.now (map (λ ops. ops.items) scripts.items)) }
{
    let mut scripts = Vec::new(alloc);
    for m in 0..load.mutators() {
        let ops = copied_ops(alloc, load.ops(m))?;
        append(&mut scripts, ops)?;
    }
    Ok(scripts)
}

/// The numbers of a workload's periods, with this trigger.
pub(crate) fn pacing_with(settings: Settings, trigger: u32) -> Pacing
    requires settings { AreSettings settings }
    ensures calls { result.calls ≡ settings.period }
    ensures visits { result.visits ≡ settings.period }
    ensures headroom { result.headroom ≡ settings.headroom }
    ensures trigger { result.trigger ≡ trigger }
{
    Pacing {
        calls: settings.period,
        visits: settings.period,
        headroom: settings.headroom,
        trigger,
    }
}
