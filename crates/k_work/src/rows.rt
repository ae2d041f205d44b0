//! The table of work.
ghost use Rattle.std.specs.Prelude.{◌≡◌, ◌≤◌, [], IfOk, length};
ghost use Rattle.k_work.specs.Crediting.{AreSmall, HasRoomFor, IsAmong, row_for, with_credit, with_work};
ghost use Rattle.k_work.specs.Lines.{row_at};
ghost use Rattle.k_work.specs.Tables.{table_of, total_row};

use k_io::NoMemory;
use std::alloc::Global;
use std::marker::Model;

/// How many collections, and their work.
#[derive(Clone, Copy, Debug, PartialEq, Eq)]
pub struct WorkRow {
    pub collections: u32,
    pub work: u64,
}

/// A row for each process, and one for the closing.
#[derive(Drop)]
pub struct WorkTable {
    pub procs: Vec<WorkRow>,
    pub closing: WorkRow,
}

impl Model for WorkTable {
    ghost use Rattle.k_work.specs.Tables.{Work};

    ghost Value = { Work };

    ghost view = { λ t. record { procs = t.procs.items; closing = t.closing } };
}

impl WorkRow {
    /// A row without work.
    fn none() -> WorkRow
        ensures { result ≡ record { collections = 0; work = 0 } }
    {
        WorkRow {
            collections: 0,
            work: 0,
        }
    }

    /// The row with one collection more, of that work.
    fn with_work(self, work: u64) -> WorkRow
        requires { HasRoomFor work self }
        ensures { result ≡ with_work work self }
    {
        WorkRow {
            collections: self.collections + 1,
            work: self.work + work,
        }
    }
}

impl WorkTable {
    /// A table without work.
    #[tactic(auto, using(crate::proofs::Summed::empty_as))]
    pub(crate) fn empty(alloc: Global, processes: usize) -> Result<WorkTable, NoMemory>
        ensures { IfOk result (λ t. t ≡ table_of processes []) }
    {
        let none = WorkRow::none();
        Ok(WorkTable {
            procs: vec![in alloc; none; processes]?,
            closing: none,
        })
    }

    /// Credits a collection to the process, or to the closing.
    pub(crate) fn credit(&mut self, to: Option<u32>, work: u64)
        requires there { IsAmong (length self.old.procs) to }
        requires room { HasRoomFor work (row_for self.old to) }
        ensures { self.new ≡ with_credit to work self.old }
    {
        match to {
            Some(p) => {
                let row = self.row(p).with_work(work);
                self.procs[p as usize] = row;
            }
            None => self.closing = self.closing_row().with_work(work),
        }
    }

    /// How many processes there are rows of.
    pub(crate) fn processes(&self) -> u32
        requires { length self.now.procs ≤ 64 }
        ensures { result ≡ length self.now.procs }
    {
        self.procs.len() as u32
    }

    /// The row of the process of that number; past the last one a row without work.
    pub(crate) fn row(&self, process: u32) -> WorkRow
        ensures { result ≡ row_at self.now process }
    {
        match self.procs.get(process as usize) {
            Some(row) => *row,
            None => WorkRow::none(),
        }
    }

    /// The row of the closing.
    pub(crate) fn closing_row(&self) -> WorkRow
        ensures { result ≡ self.now.closing }
    {
        self.closing
    }

    /// The sum of all rows.
    #[tactic(auto, using(crate::proofs::Numbers::total_left, crate::proofs::Numbers::total_over))]
    pub fn total(&self) -> WorkRow
        requires { AreSmall self.now }
        ensures { result ≡ total_row self.now }
    {
        let mut all = WorkRow::none();
        for row in &self.procs {
            all.collections += row.collections;
            all.work += row.work;
        }
        all.collections += self.closing.collections;
        all.work += self.closing.work;
        all
    }
}
