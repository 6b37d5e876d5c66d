//! Files are finished.

ghost use Rattle.std.specs.Prelude.{◌≡◌, ◌<◌, length};
ghost use Rattle.rc_core.specs.Events.{ended_file, finished_as, GoesOn};
ghost use Rattle.rc_core.specs.declared.event.Event.TheVariants.{Finish};
ghost use Rattle.rc_core.specs.Rows.{changed_at};

use crate::goals::copy_goal;
use crate::held::closing;
use crate::{CoreErr, FileRow, FileRows, FileState, Standing, State};
use rc_tree::NoMemory;
use std::alloc::Global;

// The open file of an item is as it is to be, and its mark was written.
pub(crate) fn finish(
    alloc: Global,
    state: &mut State,
    item: u32,
    stood: bool,
) -> Result<(), CoreErr>
    ensures { GoesOn state.old (Finish item stood) result state.new }
{
    let Some((n, row)) = closing(state, item) else {
        return Err(CoreErr::NotAllowed { event: 5 });
    };
    match copy_goal(alloc, state.rules, &state.noted.plan, &row.file) {
        Ok(goal) => {
            end_in(&mut state.files, n, goal, stood);
            state.files.sync();
            Ok(())
        }
        Err(NoMemory) => Err(CoreErr::NoMemory),
    }
}

// The file with a number is as it is to be.
fn end_in(files: &mut FileRows, n: usize, goal: Option<Standing>, stood: bool)
    requires { n < length files.old }
    ensures { files.new ≡ changed_at n (ended_file goal stood) files.old }
{
    ended_file(goal, stood, &mut files.rows[n]);
}

fn ended_file(goal: Option<Standing>, stood: bool, row: &mut FileRow)
    ensures { row.new ≡ ended_file goal stood row.old }
{
    row.stands = goal;
    row.state = finished_as(stood);
}

fn finished_as(stood: bool) -> FileState
    ensures { result ≡ finished_as stood }
{
    if stood {
        FileState::Finished
    } else {
        FileState::Doubtful
    }
}
