ghost use Rattle.std.specs.Prelude.{◌≡◌, [], None, IfOk, IfErr, OnOk, OnErr};
ghost use Rattle.pm_world.specs.Counting.{row_of, sent_more, taken_more, AreSorted, AddsRow, Tell};
ghost use Rattle.pm_world.specs.Counting.{IsRowAt, IsGapFor, HasRowFor, ChangesRow};
ghost use Rattle.pm_world.specs.Counting.{CountsAnswer, GoesOnTelling};

use crate::step::Answer;
use std::alloc::{AllocError, Global};
use std::marker::Model;

/// How many FISes of one connection of one port were sent and taken. A count stays at its largest
/// value.
#[derive(Clone, Copy, Debug, PartialEq, Eq)]
pub struct ConnCount {
    pub port: u8,
    pub conn: u32,
    pub sent: u64,
    pub taken: u64,
}

/// Counts what answers tell: one row for each connection that came, sorted by port and connection.
#[derive(Drop)]
pub struct Counts {
    rows: Vec<ConnCount>,
}

impl Model for Counts {
    ghost use Rattle.std.specs.Prelude.{List};
    ghost use Rattle.pm_world.specs.Counting.{AreSorted};
    ghost use Rattle.pm_world.specs.declared.counts.ConnCount.{ConnCount};

    ghost Value = { List ConnCount };

    ghost view = { λ c. c.rows.items };

    ghost invariant = { λ c. AreSorted c.rows.items };
}

impl Counts {
    /// Counts without a row. The rows will be kept in memory of this allocator.
    pub fn new(alloc: Global) -> Self
        ensures no_rows { result ≡ [] }
        ensures tell { Tell result [] }
    {
        Counts {
            rows: Vec::new(alloc),
        }
    }

    /// Counts one answer of a world.
    pub fn note(&mut self, answer: &Answer) -> Result<(), AllocError>
        ensures rows { OnOk result (CountsAnswer self.old answer.now self.new) }
        ensures tell { OnOk result (GoesOnTelling self.old answer.now self.new) }
        ensures err { OnErr result (self.new ≡ self.old) }
        ensures memory { OnErr result (AddsRow self.old answer.now) }
    {
        self.count(answer)
    }

    /// The rows, sorted by port and connection.
    pub fn rows(&self) -> &[ConnCount]
        ensures rows { result.now ≡ self.now }
        ensures sorted { AreSorted self.now }
    {
        &self.rows
    }

    fn count(&mut self, answer: &Answer) -> Result<(), AllocError>
        ensures rows { OnOk result (CountsAnswer self.old answer.now self.new) }
        ensures err { OnErr result (self.new ≡ self.old) }
        ensures memory { OnErr result (AddsRow self.old answer.now) }
    {
        match answer {
            Answer::Came { port, conn } => self.came(*port, *conn)?,
            Answer::Sent { port, conn, .. } => self.sent(*port, *conn),
            Answer::Took { port, conn, .. } => self.took(*port, *conn),
            Answer::Idle | Answer::Blocked | Answer::Gone { .. } => {}
            Answer::DiskTook { .. } | Answer::Presence(_) | Answer::Offered { .. } => {}
            Answer::Passed(_) | Answer::Up(_) | Answer::Down(_) => {}
            Answer::Pushed | Answer::Ticked => {}
            Answer::Submitted(_) | Answer::Refused(_) | Answer::Polled(_) | Answer::Put => {}
        }
        Ok(())
    }

    /// Gives the connection a row, unless it has one.
    fn came(&mut self, port: u8, conn: u32) -> Result<(), AllocError>
        ensures rows { OnOk result (HasRowFor self.old port conn self.new) }
        ensures err { OnErr result (self.new ≡ self.old) }
        ensures memory { OnErr result (row_of port conn self.old ≡ None) }
    {
        let Err(at) = self.search(port, conn) else {
            return Ok(());
        };
        let row = ConnCount {
            port,
            conn,
            sent: 0,
            taken: 0,
        };
        Ok(self.rows.insert(at, row)?)
    }

    /// Counts one more FIS as sent on the connection, if it has a row.
    fn sent(&mut self, port: u8, conn: u32)
        ensures { ChangesRow sent_more self.old port conn self.new }
    {
        if let Ok(at) = self.search(port, conn) {
            let row = self.rows[at];
            self.rows[at] = ConnCount {
                sent: row.sent.saturating_add(1),
                ..row
            };
        }
    }

    /// Counts one more FIS as taken on the connection, if it has a row.
    fn took(&mut self, port: u8, conn: u32)
        ensures { ChangesRow taken_more self.old port conn self.new }
    {
        if let Ok(at) = self.search(port, conn) {
            let row = self.rows[at];
            self.rows[at] = ConnCount {
                taken: row.taken.saturating_add(1),
                ..row
            };
        }
    }

    /// The place of the connection's row, or the place that such a row would have.
    fn search(&self, port: u8, conn: u32) -> Result<usize, usize>
        ensures found { IfOk result (IsRowAt self.now port conn) }
        ensures absent { IfErr result (IsGapFor self.now port conn) }
    {
        self.rows
            .binary_search_by_key(&(port, conn), |row| (row.port, row.conn))
    }
}
