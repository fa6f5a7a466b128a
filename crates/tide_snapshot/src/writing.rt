//! Writing the line of a cell, piece by piece. It takes no memory, and knows nothing of how a path was found.
ghost use Rattle.std.specs.Prelude.{◌≡◌, ◌+◌, ◌++◌, ◌<◌, ◌≤◌, All, Some, codes, length, option_map, slice_index, OnErr, OnOk};
ghost use Rattle.std.specs.List.{flat_map};
ghost use Rattle.std.specs.Io.KnownBytes.{Appends};
ghost use Rattle.tide_io.specs.Faults.{AppendsPart, HasCause};
ghost use Rattle.tide_text.specs.work.Work.{ArePaths};
ghost use Rattle.tide_snapshot.specs.Line.{body_text, cell_piece, group_text, head_text, pair_piece, pairs_text, properties_text, property_piece, root_text, slots_text, value_piece};
ghost use Rattle.tide_retained.specs.Retention.{cells_on, path_of, way_on, AreFrom};
ghost use Rattle.tide_snapshot.specs.Written.{held_line, line_at, lines_text, way_text, HasNamedKeys};

use tide_io::{Failed, Sink, write_all};
use tide_model::Val;
use tide_retained::{Held, Keyed, Retained, Root, Way};
use tide_text::{Keys, LONGEST_LINE, Line, Workload};
use tide_words::TABLE;

/// The names of the keys of a workload, whose paths have no others.
pub(crate) fn names_of(load: &Workload) -> &Keys
    ensures names { result.now ≡ load.now.keys }
    ensures paths { ArePaths (length result.now) load.now.paths }
{
    // what its paths are, they promise themselves
    let _paths = load.paths();
    load.keys()
}

/// So many cells of a path are looked up at once.
const STRETCH: usize = 64;

/// A piece of a line.
type Piece = Line<LONGEST_LINE>;

/// Writes a value after a space.
#[tactic(auto, unfolding(crate::specs::Line::value_piece))]
fn write_value<K: Sink>(out: &mut K, value: Val) -> Result<(), Failed>
    ensures whole { OnOk result (Appends (K.held out.old) (K.held out.new) (value_piece value)) }
    ensures part { OnErr result (AppendsPart (K.held out.old) (K.held out.new) (value_piece value)) }
    ensures cause { HasCause (K.faults out.old) (K.faults out.new) result }
{
    let mut piece = Piece::new();
    piece.text(" ").val(value);
    write_all(out, piece.as_bytes())
}

/// Writes a pair after a space.
#[tactic(auto, unfolding(crate::specs::Line::pair_piece))]
fn write_pair<K: Sink>(out: &mut K, pair: Keyed) -> Result<(), Failed>
    ensures whole { OnOk result (Appends (K.held out.old) (K.held out.new) (pair_piece pair)) }
    ensures part { OnErr result (AppendsPart (K.held out.old) (K.held out.new) (pair_piece pair)) }
    ensures cause { HasCause (K.faults out.old) (K.faults out.new) result }
{
    let mut piece = Piece::new();
    piece.text(" ").cell(pair.key).text("=").val(pair.value);
    write_all(out, piece.as_bytes())
}

/// Writes a property after a space.
#[tactic(auto, unfolding(crate::specs::Line::property_piece))]
fn write_property<K: Sink>(out: &mut K, names: &Keys, property: Keyed) -> Result<(), Failed>
    requires { property.key < length names.now }
    ensures whole { OnOk result (Appends (K.held out.old) (K.held out.new) (property_piece names.now property)) }
    ensures part { OnErr result (AppendsPart (K.held out.old) (K.held out.new) (property_piece names.now property)) }
    ensures cause { HasCause (K.faults out.old) (K.faults out.new) result }
{
    let mut piece = Piece::new();
    piece.key(names, property.key).text("=").val(property.value);
    write_all(out, piece.as_bytes())
}

/// Writes a cell after a space.
#[tactic(auto, unfolding(crate::specs::Line::cell_piece))]
fn write_id<K: Sink>(out: &mut K, cell: u32) -> Result<(), Failed>
    ensures whole { OnOk result (Appends (K.held out.old) (K.held out.new) (cell_piece cell)) }
    ensures part { OnErr result (AppendsPart (K.held out.old) (K.held out.new) (cell_piece cell)) }
    ensures cause { HasCause (K.faults out.old) (K.faults out.new) result }
{
    let mut piece = Piece::new();
    piece.text(" ").cell(cell);
    write_all(out, piece.as_bytes())
}

/// Writes a cell's id and class.
#[tactic(auto, unfolding(crate::specs::Line::head_text))]
fn write_head<K: Sink>(out: &mut K, cell: u32, class: u8) -> Result<(), Failed>
    ensures whole { OnOk result (Appends (K.held out.old) (K.held out.new) (head_text cell class)) }
    ensures part { OnErr result (AppendsPart (K.held out.old) (K.held out.new) (head_text cell class)) }
    ensures cause { HasCause (K.faults out.old) (K.faults out.new) result }
{
    let mut piece = Piece::new();
    piece.text("cell ").cell(cell).text(" class").operand(class);
    write_all(out, piece.as_bytes())
}

/// Writes a cell's group, where it is in one.
#[tactic(auto, unfolding(crate::specs::Line::group_text))]
fn write_group<K: Sink>(out: &mut K, group: u32) -> Result<(), Failed>
    ensures whole { OnOk result (Appends (K.held out.old) (K.held out.new) (group_text group)) }
    ensures part { OnErr result (AppendsPart (K.held out.old) (K.held out.new) (group_text group)) }
    ensures cause { HasCause (K.faults out.old) (K.faults out.new) result }
{
    let mut piece = Piece::new();
    if group != 0 {
        piece.text(" group").operand(group);
    }
    write_all(out, piece.as_bytes())
}

/// Puts a root behind the piece.
#[tactic(auto, unfolding(crate::specs::Line::root_text))]
fn compose_root(piece: &mut Piece, root: Root)
    requires { length piece.old ≤ 32 }
    ensures { piece.new ≡ piece.old ++ root_text root }
{
    match root {
        Root::Register { who, register } => {
            piece.register(register).text(" of").operand(who);
        }
        Root::Claim { who } => {
            piece.text(" claim of").operand(who);
        }
        Root::Strong { handle } => {
            piece.text(" strong").operand(handle);
        }
    }
}

/// Writes that a path follows, and its root.
fn write_root<K: Sink>(out: &mut K, root: Root) -> Result<(), Failed>
    ensures whole { OnOk result (Appends (K.held out.old) (K.held out.new) (codes " path" ++ root_text root)) }
    ensures part { OnErr result (AppendsPart (K.held out.old) (K.held out.new) (codes " path" ++ root_text root)) }
    ensures cause { HasCause (K.faults out.old) (K.faults out.new) result }
{
    let mut piece = Piece::new();
    piece.text(" path");
    compose_root(&mut piece, root);
    write_all(out, piece.as_bytes())
}

/// Writes values, each after a space.
fn write_values<K: Sink>(out: &mut K, values: &[Val]) -> Result<(), Failed>
    ensures whole { OnOk result (Appends (K.held out.old) (K.held out.new) (flat_map value_piece values.now)) }
    ensures part { OnErr result (AppendsPart (K.held out.old) (K.held out.new) (flat_map value_piece values.now)) }
    ensures cause { HasCause (K.faults out.old) (K.faults out.new) result }
{
    for value in values {
        write_value(out, *value)?;
    }
    Ok(())
}

/// Writes pairs, each after a space.
fn write_pairs<K: Sink>(out: &mut K, pairs: &[Keyed]) -> Result<(), Failed>
    ensures whole { OnOk result (Appends (K.held out.old) (K.held out.new) (flat_map pair_piece pairs.now)) }
    ensures part { OnErr result (AppendsPart (K.held out.old) (K.held out.new) (flat_map pair_piece pairs.now)) }
    ensures cause { HasCause (K.faults out.old) (K.faults out.new) result }
{
    for pair in pairs {
        write_pair(out, *pair)?;
    }
    Ok(())
}

/// Writes properties, each after a space.
fn write_each_property<K: Sink>(
    out: &mut K,
    names: &Keys,
    properties: &[Keyed],
) -> Result<(), Failed>
    requires { All (λ property. property.key < length names.now) properties.now }
    ensures whole { OnOk result (Appends (K.held out.old) (K.held out.new)
        (flat_map (property_piece names.now) properties.now)) }
    ensures part { OnErr result (AppendsPart (K.held out.old) (K.held out.new)
        (flat_map (property_piece names.now) properties.now)) }
    ensures cause { HasCause (K.faults out.old) (K.faults out.new) result }
{
    for property in properties {
        write_property(out, names, *property)?;
    }
    Ok(())
}

/// Writes the pairs of a table.
fn write_table<K: Sink>(out: &mut K, pairs: &[Keyed]) -> Result<(), Failed>
    ensures whole { OnOk result (Appends (K.held out.old) (K.held out.new) (pairs_text pairs.now)) }
    ensures part { OnErr result (AppendsPart (K.held out.old) (K.held out.new) (pairs_text pairs.now)) }
    ensures cause { HasCause (K.faults out.old) (K.faults out.new) result }
{
    write_all(out, b" pairs")?;
    write_pairs(out, pairs)
}

/// Writes the values of a cell's slots.
fn write_slots<K: Sink>(out: &mut K, values: &[Val]) -> Result<(), Failed>
    ensures whole { OnOk result (Appends (K.held out.old) (K.held out.new) (slots_text values.now)) }
    ensures part { OnErr result (AppendsPart (K.held out.old) (K.held out.new) (slots_text values.now)) }
    ensures cause { HasCause (K.faults out.old) (K.faults out.new) result }
{
    write_all(out, b" slots")?;
    write_values(out, values)
}

/// Writes the pairs of a table, and the values of the slots of any other cell.
#[tactic(auto, unfolding(crate::specs::Line::body_text))]
fn write_body<K: Sink>(out: &mut K, held: &Held) -> Result<(), Failed>
    ensures whole { OnOk result (Appends (K.held out.old) (K.held out.new)
        (body_text held.now.class held.now.slots.items held.now.pairs.items)) }
    ensures part { OnErr result (AppendsPart (K.held out.old) (K.held out.new)
        (body_text held.now.class held.now.slots.items held.now.pairs.items)) }
    ensures cause { HasCause (K.faults out.old) (K.faults out.new) result }
{
    if held.class == TABLE {
        write_table(out, held.pairs.as_slice())
    } else {
        write_slots(out, held.slots.as_slice())
    }
}

/// Writes the properties of a cell, where it has some.
#[tactic(auto, unfolding(crate::specs::Line::properties_text))]
fn write_properties<K: Sink>(out: &mut K, names: &Keys, properties: &[Keyed]) -> Result<(), Failed>
    requires { All (λ property. property.key < length names.now) properties.now }
    ensures whole { OnOk result (Appends (K.held out.old) (K.held out.new)
        (properties_text names.now properties.now)) }
    ensures part { OnErr result (AppendsPart (K.held out.old) (K.held out.new)
        (properties_text names.now properties.now)) }
    ensures cause { HasCause (K.faults out.old) (K.faults out.new) result }
{
    if properties.is_empty() {
        return Ok(());
    }
    write_all(out, b" props")?;
    write_each_property(out, names, properties)
}

/// Writes a cell and what it holds.
fn write_held<K: Sink>(out: &mut K, names: &Keys, cell: u32, held: &Held) -> Result<(), Failed>
    requires { All (λ property. property.key < length names.now) held.now.properties.items }
    ensures whole { OnOk result (Appends (K.held out.old) (K.held out.new) (held_line names.now cell held.now)) }
    ensures part { OnErr result (AppendsPart (K.held out.old) (K.held out.new) (held_line names.now cell held.now)) }
    ensures cause { HasCause (K.faults out.old) (K.faults out.new) result }
{
    write_head(out, cell, held.class)?;
    write_body(out, held)?;
    write_properties(out, names, held.properties.as_slice())?;
    write_group(out, held.group)
}

/// The cell on the way to a cell that is so many steps from its first: out of a stretch of the way, where it has this
/// cell; else the stretch from there on is looked up in its place.
fn cell_on_way(
    retained: &Retained,
    cell: u32,
    step: u32,
    first: &mut u32,
    stretch: &mut [u32],
) -> u32
    requires within { step < length (cells_on (path_of retained.now cell)) }
    requires room { 0 < length stretch.old }
    requires stretch { AreFrom (cells_on (path_of retained.now cell)) first.old stretch.old }
    ensures cell { result ≡ slice_index (cells_on (path_of retained.now cell)) step }
    ensures same_size { length stretch.new ≡ length stretch.old }
    ensures stretch { AreFrom (cells_on (path_of retained.now cell)) first.new stretch.new }
{
    if *first <= step && ((step - *first) as usize) < stretch.len() {
        return stretch[(step - *first) as usize];
    }
    retained.cells_on_way(cell, step, stretch);
    *first = step;
    stretch[0]
}

/// Writes the cells on the way to a cell, the first one first.
fn write_way<K: Sink>(out: &mut K, retained: &Retained, cell: u32, steps: u32) -> Result<(), Failed>
    requires counted { length (cells_on (path_of retained.now cell)) ≡ steps + 1 }
    ensures whole { OnOk result (Appends (K.held out.old) (K.held out.new)
        (flat_map cell_piece (cells_on (path_of retained.now cell)))) }
    ensures part { OnErr result (AppendsPart (K.held out.old) (K.held out.new)
        (flat_map cell_piece (cells_on (path_of retained.now cell)))) }
    ensures cause { HasCause (K.faults out.old) (K.faults out.new) result }
{
    let mut first = 0;
    let mut stretch = [0; STRETCH];
    retained.cells_on_way(cell, first, &mut stretch);
    for step in 0..steps {
        let next = cell_on_way(retained, cell, step, &mut first, &mut stretch);
        write_id(out, next)?;
    }
    let last = cell_on_way(retained, cell, steps, &mut first, &mut stretch);
    write_id(out, last)
}

/// Writes the path to a cell, to which this is the way, and ends the line.
fn write_found<K: Sink>(out: &mut K, retained: &Retained, cell: u32, way: Way) -> Result<(), Failed>
    requires way { option_map way_on (path_of retained.now cell) ≡ Some way }
    ensures whole { OnOk result (Appends (K.held out.old) (K.held out.new) (way_text (path_of retained.now cell))) }
    ensures part { OnErr result (AppendsPart (K.held out.old) (K.held out.new) (way_text (path_of retained.now cell))) }
    ensures cause { HasCause (K.faults out.old) (K.faults out.new) result }
{
    write_root(out, way.root)?;
    write_way(out, retained, cell, way.steps)?;
    write_all(out, b"\n")
}

/// Writes the path to a cell, or that there is none, and ends the line.
fn write_path<K: Sink>(out: &mut K, retained: &Retained, cell: u32) -> Result<(), Failed>
    ensures whole { OnOk result (Appends (K.held out.old) (K.held out.new) (way_text (path_of retained.now cell))) }
    ensures part { OnErr result (AppendsPart (K.held out.old) (K.held out.new) (way_text (path_of retained.now cell))) }
    ensures cause { HasCause (K.faults out.old) (K.faults out.new) result }
{
    match retained.way(cell) {
        Some(way) => write_found(out, retained, cell, way),
        None => write_all(out, b" path none\n"),
    }
}

/// Writes the line of a cell that held this.
fn write_line<K: Sink>(
    out: &mut K,
    names: &Keys,
    retained: &Retained,
    cell: u32,
    held: &Held,
) -> Result<(), Failed>
    requires keys { All (λ property. property.key < length names.now) held.now.properties.items }
    ensures whole { OnOk result (Appends (K.held out.old) (K.held out.new)
        (held_line names.now cell held.now ++ way_text (path_of retained.now cell))) }
    ensures part { OnErr result (AppendsPart (K.held out.old) (K.held out.new)
        (held_line names.now cell held.now ++ way_text (path_of retained.now cell))) }
    ensures cause { HasCause (K.faults out.old) (K.faults out.new) result }
{
    write_held(out, names, cell, held)?;
    write_path(out, retained, cell)
}

/// Writes the line of a cell that was live, and nothing of any other.
pub(crate) fn write_cell_line<K: Sink>(
    out: &mut K,
    names: &Keys,
    retained: &Retained,
    cell: u32,
) -> Result<(), Failed>
    requires keys { HasNamedKeys (length names.now) retained.now.contents }
    ensures whole { OnOk result (Appends (K.held out.old) (K.held out.new) (line_at names.now retained.now cell)) }
    ensures part { OnErr result (AppendsPart (K.held out.old) (K.held out.new) (line_at names.now retained.now cell)) }
    ensures cause { HasCause (K.faults out.old) (K.faults out.new) result }
{
    match retained.held(cell) {
        Some(held) => write_line(out, names, retained, cell, held),
        None => Ok(()),
    }
}

/// Writes the lines of the cells that were live.
pub(crate) fn write_all_lines<K: Sink>(
    out: &mut K,
    names: &Keys,
    retained: &Retained,
) -> Result<(), Failed>
    requires keys { HasNamedKeys (length names.now) retained.now.contents }
    ensures whole { OnOk result (Appends (K.held out.old) (K.held out.new) (lines_text names.now retained.now)) }
    ensures part { OnErr result (AppendsPart (K.held out.old) (K.held out.new) (lines_text names.now retained.now)) }
    ensures cause { HasCause (K.faults out.old) (K.faults out.new) result }
{
    for cell in 0..retained.cells() {
        write_cell_line(out, names, retained, cell)?;
    }
    Ok(())
}
