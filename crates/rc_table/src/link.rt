//! The way to a table's file: opened at the first call, and with a transaction from the first change to its commit.

use crate::TableErr;
use crate::statements::{Database, begin, close_file, end, is_open, make_entries, open_file};

// A file, and its database once it is open.
//
// Some failures end a transaction and lose what it changed, though the calls that changed it succeeded. So that no later
// call hides the loss, each one fails from then on.
pub(crate) struct Link {
    rt: HostRuntime,
    file: String,
    database: Option<Database>,
    is_changing: bool,
}

impl Link {
    pub(crate) fn new(rt: HostRuntime, file: String) -> Link {
        Link {
            rt,
            file,
            database: None,
            is_changing: false,
        }
    }

    // The database, opened where it was not yet.
    pub(crate) fn reading(&mut self) -> Result<&mut Database, TableErr> {
        if self.database.is_none() {
            self.database = Some(opened(&self.rt, self.file.as_str())?);
        }
        let is_changing = self.is_changing;
        match &mut self.database {
            Some(database) if is_open(database) == is_changing => Ok(database),
            _ => Err(TableErr::Failed),
        }
    }

    // The database with a transaction.
    pub(crate) fn changing(&mut self) -> Result<&mut Database, TableErr> {
        self.begin()?;
        self.reading()
    }

    fn begin(&mut self) -> Result<(), TableErr> {
        if !self.is_changing {
            begin(self.reading()?)?;
            self.is_changing = true;
        }
        Ok(())
    }

    // Makes the changes of the transaction durable and ends it, where one was begun.
    pub(crate) fn commit(&mut self) -> Result<(), TableErr> {
        let is_changing = self.is_changing;
        let database = self.reading()?;
        if is_changing {
            end(database)?;
            self.is_changing = false;
        }
        Ok(())
    }
}

// The database is closed, so that what was committed stands in its file alone. Where that fails, it stands in the file and
// the log beside it, as before.
impl Drop for Link {
    fn drop(self) {
        let Link {
            rt: _,
            file: _,
            database,
            is_changing: _,
        } = self;
        if let Some(database) = database {
            let _ = close_file(database);
        }
    }
}

// The database of a file, with its table.
fn opened(rt: &HostRuntime, file: &str) -> Result<Database, TableErr> {
    let mut database = open_file(rt, file)?;
    make_entries(&mut database)?;
    Ok(database)
}
