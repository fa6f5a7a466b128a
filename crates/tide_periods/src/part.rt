//! A running part: each mutator in turn makes its share of calls. It knows no cycle.
ghost use Rattle.std.specs.Prelude.{◌≡◌, ◌<◌, ◌≤◌, false, IfOk};
ghost use Rattle.std.specs.List.{list_all};
ghost use Rattle.tide_periods.specs.Asking.{scripts_of, IsCursor};
ghost use Rattle.tide_periods.specs.Left.{left_of, total_left};
ghost use Rattle.tide_periods.specs.Part.{AreCursors, RanPart, RanShare};
ghost use Rattle.tide_periods.specs.Recorded.{IsSettled};

use crate::cursor::ScriptCursor;
use crate::recorder::Recorder;
use tide_model::Memory;

/// Makes a mutator's calls of a part: `run`, or fewer where it retires or stops. Answers whether it stopped.
pub(crate) fn run_share<T: Recorder>(
    recorder: &mut T,
    cursor: &mut ScriptCursor,
    run: u32,
) -> Result<bool, Memory>
    requires settled { IsSettled (T.recorded recorder.old) }
    requires stands { T.stands recorder.old }
    requires cursor { IsCursor (T.recorded recorder.old) cursor.old }
    ensures ran { IfOk result (RanShare (T.recorded recorder.old) (T.recorded recorder.new) run cursor.old.who) }
    ensures stands { IfOk result (λ ended. T.stands recorder.new) }
    ensures cursor { IfOk result (λ ended. IsCursor (T.recorded recorder.new) cursor.new) }
    ensures who { IfOk result (λ ended. cursor.new.who ≡ cursor.old.who) }
    ensures ops { IfOk result (λ ended. cursor.new.ops ≡ cursor.old.ops) }
    ensures left { IfOk result (λ ended. left_of (T.recorded recorder.new).state.claims cursor.new
        ≤ left_of (T.recorded recorder.old).state.claims cursor.old) }
    ensures fewer { IfOk result (λ ended. 0 < run → cursor.old.retired ≡ false →
        left_of (T.recorded recorder.new).state.claims cursor.new
        < left_of (T.recorded recorder.old).state.claims cursor.old) }
{
    for _made in 0..run {
        if cursor.retired {
            return Ok(false);
        }
        let op = cursor.next(recorder.claims(cursor.who));
        let reply = recorder.call(cursor.who, op)?;
        if cursor.take(op, reply)? {
            return Ok(true);
        }
    }
    Ok(false)
}

/// Each mutator in turn makes its calls of a part. Answers whether one of them stopped.
pub(crate) fn make_shares<T: Recorder>(
    recorder: &mut T,
    cursors: &mut [ScriptCursor],
    run: u32,
) -> Result<bool, Memory>
    requires settled { IsSettled (T.recorded recorder.old) }
    requires stands { T.stands recorder.old }
    requires cursors { AreCursors (T.recorded recorder.old) cursors.old }
    ensures ran { IfOk result (RanPart (T.recorded recorder.old) (T.recorded recorder.new) run) }
    ensures stands { IfOk result (λ ended. T.stands recorder.new) }
    ensures cursors { IfOk result (λ ended. AreCursors (T.recorded recorder.new) cursors.new) }
    ensures scripts { IfOk result (λ ended. scripts_of cursors.new ≡ scripts_of cursors.old) }
    ensures left { IfOk result (λ ended.
        total_left (T.recorded recorder.new) cursors.new ≤ total_left (T.recorded recorder.old) cursors.old) }
    ensures fewer { IfOk result (λ ended. 0 < run → list_all (λ cursor. cursor.retired) cursors.old ≡ false →
        total_left (T.recorded recorder.new) cursors.new < total_left (T.recorded recorder.old) cursors.old) }
{
    let mut ended = false;
    for cursor in cursors.iter_mut() {
        if run_share(recorder, cursor, run)? {
            ended = true;
        }
    }
    Ok(ended)
}
