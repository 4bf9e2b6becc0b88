// A list of rows of one length.
ghost use Rattle.std.specs.Prelude.{◌≡◌, ◌≢◌, ℕ, ◌<◌, ◌≤◌, ◌↔◌, ◌++◌, [], ◌∷◌, IsTrue, IfOk, OnOk, OnErr, IfErr, length, take};
ghost use Rattle.std.specs.List.{All, swap};
ghost use Rattle.pm_bits.specs.Folds.{IsFold};
ghost use Rattle.pm_bits.specs.Sets.{has, IsSubset, common_count};
ghost use Rattle.pm_bits.specs.Table.{row_at, Implies, OtherContains};

use crate::{BitRow, words};
use std::alloc::{AllocError, Global};
use std::marker::Model;

/// A list of rows of one length. Beside the rows stands one word for each, its fold: the bit b of the fold says
/// whether some member is b modulo 64. So a row of at most 64 numbers is its fold, and a longer one whose fold
/// lacks a bit that the fold of `s` has does not contain `s`.
#[derive(Debug, Drop)]
pub struct BitTable {
    len: usize,
    rows: Vec<BitRow>,
    folds: Vec<u64>,
}

impl Model for BitTable {
    ghost use Rattle.std.specs.Prelude.{◌≡◌, All, length};
    ghost use Rattle.pm_bits.specs.Table.{Table};
    ghost use Rattle.pm_bits.specs.Folds.{AreFolds};

    ghost Value = { Table };

    ghost view = { λ t. record { row_len = t.len; rows = t.rows.items } };

    ghost invariant = { λ t. All (λ row. length row ≡ t.len) t.rows.items × AreFolds t.rows.items t.folds.items };
}

impl BitTable {
    /// No rows yet, of numbers below `row_len`. Takes no memory.
    pub fn new(alloc: Global, row_len: usize) -> BitTable
        ensures rows { result.rows ≡ [] }
        ensures row_len { result.row_len ≡ row_len }
    {
        BitTable {
            len: row_len,
            rows: Vec::new(alloc),
            folds: Vec::new(alloc),
        }
    }

    /// The length of each row.
    pub fn row_len(&self) -> usize
        ensures { result ≡ self.now.row_len }
    {
        self.len
    }

    /// How many rows there are.
    pub fn len(&self) -> usize
        ensures { result ≡ length self.now.rows }
    {
        self.rows.len()
    }

    /// Whether there are no rows.
    pub fn is_empty(&self) -> bool
        ensures { IsTrue result ↔ (self.now.rows ≡ []) }
    {
        self.rows.is_empty()
    }

    /// The row at `i`.
    pub fn row(&self, i: usize) -> &BitRow
        requires { i < length self.now.rows }
        ensures value { result.now ≡ row_at self.now i }
        ensures len { length result.now ≡ self.now.row_len }
    {
        &self.rows[i]
    }

    /// Puts a row at the end. Where memory lacks the row comes back, and the table is as it was.
    pub fn push(&mut self, row: BitRow) -> Result<(), BitRow>
        requires { length row ≡ self.old.row_len }
        ensures ok { OnOk result (self.new.rows ≡ self.old.rows ++ row ∷ []) }
        ensures row_len { self.new.row_len ≡ self.old.row_len }
        ensures returned { IfErr result (λ back. back ≡ row) }
        ensures err { OnErr result (self.new ≡ self.old) }
    {
        if self.folds.reserve(1).is_err() {
            return Err(row);
        }
        let fold = row.fold();
        self.rows.push(row).map_err(|failed| failed.value)?;
        let Ok(()) = self.folds.push(fold) else {
            unreachable!()
        };
        Ok(())
    }

    /// Makes `i` a member of the row at `k`.
    pub fn set(&mut self, k: usize, i: usize)
        requires place { k < length self.old.rows }
        requires number { i < self.old.row_len }
        ensures row_len { self.new.row_len ≡ self.old.row_len }
        ensures as_many { length self.new.rows ≡ length self.old.rows }
        ensures len { length (row_at self.new k) ≡ length (row_at self.old k) }
        ensures member { IsTrue (has (row_at self.new k) i) }
        ensures others { (m : ℕ) → m ≢ i → has (row_at self.new k) m ≡ has (row_at self.old k) m }
        ensures rows { (j : ℕ) → j ≢ k → row_at self.new j ≡ row_at self.old j }
    {
        self.rows[k].set(i);
        self.folds[k] |= 1 << (i % 64);
    }

    /// Lets the rows at `i` and at `j` change places.
    pub fn swap(&mut self, i: usize, j: usize)
        requires first { i < length self.old.rows }
        requires second { j < length self.old.rows }
        ensures rows { self.new.rows ≡ swap self.old.rows i j }
        ensures row_len { self.new.row_len ≡ self.old.row_len }
    {
        self.rows.swap(i, j);
        self.folds.swap(i, j);
    }

    /// Drops all rows but the first `len`.
    pub fn truncate(&mut self, len: usize)
        ensures rows { self.new.rows ≡ take len self.old.rows }
        ensures row_len { self.new.row_len ≡ self.old.row_len }
    {
        self.rows.truncate(len);
        self.folds.truncate(len);
    }

    /// A table of these rows, each of length `row_len`.
    pub fn from_rows(
        alloc: Global,
        rows: Vec<BitRow>,
        row_len: usize,
    ) -> Result<BitTable, AllocError>
        requires { All (λ row. length row ≡ row_len) rows.items }
        ensures { IfOk result (λ table. table ≡ record { row_len = row_len; rows = rows.items }) }
    {
        let mut table = BitTable::new(alloc, row_len);
        for row in rows {
            let Ok(()) = table.push(row) else {
                return Err(AllocError);
            };
        }
        Ok(table)
    }

    /// Moves the rows of another table to the end. Where memory lacks the table is as it was.
    pub fn append(&mut self, other: BitTable) -> Result<(), AllocError>
        requires { other.row_len ≡ self.old.row_len }
        ensures ok { OnOk result (self.new.rows ≡ self.old.rows ++ other.rows) }
        ensures row_len { self.new.row_len ≡ self.old.row_len }
        ensures err { OnErr result (self.new ≡ self.old) }
    {
        let mut more = other;
        self.folds.reserve(more.folds.len())?;
        self.rows.append(&mut more.rows)?;
        let Ok(()) = self.folds.append(&mut more.folds) else {
            unreachable!()
        };
        Ok(())
    }

    /// How many members the row at `k` has in common with `s`, whose fold this is: by the folds, where these are the
    /// rows or have no bit in common, and else word by word.
    fn common_count_by(&self, k: usize, s: &BitRow, fold: u64) -> usize
        requires place { k < length self.now.rows }
        requires len { length s.now ≡ self.now.row_len }
        requires fold { IsFold s.now fold }
        ensures { result ≡ common_count (row_at self.now k) s.now }
    {
        let both = self.folds[k] & fold;
        if self.len <= 64 || both == 0 {
            both.count_ones() as usize
        } else {
            self.rows[k].common_count(s)
        }
    }

    /// How many members the rows at `i` and at `j` have in common.
    pub fn common_count(&self, i: usize, j: usize) -> usize
        requires first { i < length self.now.rows }
        requires second { j < length self.now.rows }
        ensures { result ≡ common_count (row_at self.now i) (row_at self.now j) }
    {
        self.common_count_by(i, &self.rows[j], self.folds[j])
    }

    /// How many members the row at `k` has in common with `s`.
    pub fn common_count_with(&self, k: usize, s: &BitRow) -> usize
        requires place { k < length self.now.rows }
        requires len { length s.now ≡ self.now.row_len }
        ensures { result ≡ common_count (row_at self.now k) s.now }
    {
        self.common_count_by(k, s, s.fold())
    }

    /// Whether the row at `k` contains `s`, whose fold this is. A row is opened only where its fold has what that of
    /// `s` has.
    fn row_contains(&self, s: &BitRow, fold: u64, k: usize) -> bool
        requires place { k < length self.now.rows }
        requires len { length s.now ≡ self.now.row_len }
        requires fold { IsFold s.now fold }
        ensures { IsTrue result ↔ IsSubset s.now (row_at self.now k) }
    {
        self.folds[k] & fold == fold && self.rows[k].contains(s)
    }

    /// Whether some row other than those at `i` and `j` contains `s`, whose fold this is: the folds are the rows.
    fn other_fold_contains(&self, s: &BitRow, fold: u64, i: usize, j: usize) -> bool
        requires short { self.now.row_len ≤ 64 }
        requires len { length s.now ≡ self.now.row_len }
        requires fold { IsFold s.now fold }
        ensures { IsTrue result ↔ OtherContains self.now s.now i j }
    {
        words::other_contains(&self.folds, fold, i, j)
    }

    /// Whether some row other than those at `i` and `j` contains `s`, whose fold this is.
    fn other_row_contains(&self, s: &BitRow, fold: u64, i: usize, j: usize) -> bool
        requires len { length s.now ≡ self.now.row_len }
        requires fold { IsFold s.now fold }
        ensures { IsTrue result ↔ OtherContains self.now s.now i j }
    {
        for k in 0..self.folds.len() {
            if self.row_contains(s, fold, k) && k != i && k != j {
                return true;
            }
        }
        false
    }

    /// Whether some row other than those at `i` and `j` contains `s`. Rows of at most 64 numbers are compared by
    /// their folds alone; of longer ones those are opened whose folds have what that of `s` has.
    pub fn other_contains(&self, s: &BitRow, i: usize, j: usize) -> bool
        requires { length s.now ≡ self.now.row_len }
        ensures { IsTrue result ↔ OtherContains self.now s.now i j }
    {
        let fold = s.fold();
        if self.len <= 64 {
            self.other_fold_contains(s, fold, i, j)
        } else {
            self.other_row_contains(s, fold, i, j)
        }
    }

    /// Whether each of the first `end` rows that contains `s` contains `t`, where these are their folds: the folds are
    /// the rows.
    fn fold_implies(&self, s: &BitRow, t: &BitRow, s_fold: u64, t_fold: u64, end: usize) -> bool
        requires short { self.now.row_len ≤ 64 }
        requires end { end ≤ length self.now.rows }
        requires s_len { length s.now ≡ self.now.row_len }
        requires t_len { length t.now ≡ self.now.row_len }
        requires s_fold { IsFold s.now s_fold }
        requires t_fold { IsFold t.now t_fold }
        ensures { IsTrue result ↔ Implies self.now s.now t.now end }
    {
        words::implies(&self.folds, s_fold, t_fold, end)
    }

    /// Whether each of the first `end` rows that contains `s`, whose fold this is, contains `t`.
    fn row_implies(&self, s: &BitRow, t: &BitRow, fold: u64, end: usize) -> bool
        requires end { end ≤ length self.now.rows }
        requires s_len { length s.now ≡ self.now.row_len }
        requires t_len { length t.now ≡ self.now.row_len }
        requires fold { IsFold s.now fold }
        ensures { IsTrue result ↔ Implies self.now s.now t.now end }
    {
        for k in 0..end {
            if self.row_contains(s, fold, k) && !self.rows[k].contains(t) {
                return false;
            }
        }
        true
    }

    /// Whether each of the first `end` rows that contains `s` contains `t`. Rows of at most 64 numbers are compared by
    /// their folds alone; of longer ones those are opened whose folds have what that of `s` has.
    pub fn implies(&self, s: &BitRow, t: &BitRow, end: usize) -> bool
        requires end { end ≤ length self.now.rows }
        requires s_len { length s.now ≡ self.now.row_len }
        requires t_len { length t.now ≡ self.now.row_len }
        ensures { IsTrue result ↔ Implies self.now s.now t.now end }
    {
        if self.len <= 64 {
            self.fold_implies(s, t, s.fold(), t.fold(), end)
        } else {
            self.row_implies(s, t, s.fold(), end)
        }
    }
}
