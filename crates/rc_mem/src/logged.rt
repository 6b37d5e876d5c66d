//! The log of a site in memory: its changing calls in order, and its syncs. What only contracts ask of a call takes no
//! memory.

ghost use Rattle.std.specs.Prelude.{◌≡◌, ◌++◌, ◌∷◌, [], map, IfErr, OnOk, OnErr};
ghost use Rattle.rc_volume.specs.Log.{LogsOn};
ghost use Rattle.rc_mem.specs.Logged.{event_of, part_logged};

use rc_tree::{NoMemory, Path, Props};
use rc_volume::{Side, SiteErr};
use std::snapshot::Snapshot;

/// What a call was to do with an entry.
#[derive(Drop)]
#[derive_where(Debug)]
pub enum EntryCall {
    MakeDir,
    MakeFile,
    /// So many bytes were to be written from an offset on.
    Put {
        off: u64,
        len: u64,
    },
    SetLen {
        len: u64,
    },
    SetProps {
        #[derive_where(skip)]
        props: Snapshot<Props>,
    },
    Remove,
}

/// What a call was to do with the record.
#[derive(Clone, Copy, Debug)]
pub enum NotesCall {
    /// So many bytes were to be written from an offset on.
    Write { off: u64, len: u64 },
    Cut { len: u64 },
}

/// A changing call, or a sync that succeeded.
#[derive(Drop)]
#[derive_where(Debug)]
pub enum Logged {
    Changed {
        side: Side,
        #[derive_where(skip)]
        path: Snapshot<Path>,
        call: EntryCall,
    },
    Synced {
        side: Side,
        #[derive_where(skip)]
        tree: Snapshot<crate::Tree>,
    },
    Noted {
        call: NotesCall,
    },
    NotesSynced {
        #[derive_where(skip)]
        notes: Snapshot<Vec<u8>>,
    },
}

/// Puts an event at the end of a log.
pub(crate) fn log_event(log: &mut Vec<Logged>, event: Logged) -> Result<(), SiteErr>
    ensures logged { OnOk result
        (map event_of log.new.items ≡ map event_of log.old.items ++ event_of event ∷ []) }
    ensures only { LogsOn (part_logged event)
        (map event_of log.old.items) (map event_of log.new.items) }
    ensures err { OnErr result (map event_of log.new.items ≡ map event_of log.old.items) }
    ensures memory { IfErr result (λ e. e ≡ SiteErr.NoMemory) }
{
    match log.push(event) {
        Ok(()) => Ok(()),
        Err(_) => Err(SiteErr::NoMemory),
    }
}
