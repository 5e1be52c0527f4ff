// Rows of which few numbers are kept.

ghost use Rattle.std.specs.Prelude.{◌≡◌, ◌<◌, length, All, IfOk, MatchResult};
ghost use Rattle.search_terms.specs.Rows.{number, row_of, width as width_of};
ghost use Rattle.search_terms.specs.Pivot.{IsPivotAt};
ghost use Rattle.kept_rows.specs.Clearing.{IsClearingFault};
ghost use Rattle.kept_rows.specs.Forming.{IsRowFault, with_variable};
ghost use Rattle.kept_rows.specs.Replaced.{AreWithin};
ghost use Rattle.kept_rows.specs.State.{AreOpening, CanPivot};
ghost use Rattle.kept_rows.specs.Table.{table};

use crate::bounds::{Reach, reach_with};
use crate::clearing::clear;
use crate::columns::{Column, column_of, entry};
use crate::opening::{copy_of, kept_row, kept_rows, opening_columns};
use crate::sums::form_sums;
use crew_num::Overflow;
use std::alloc::{AllocError, Global};
use std::marker::Model;

/// Rows of whole numbers. Of each row the numbers at the variables with which rows open are kept, and the right side: the
/// others are whole combinations of these, so what is kept has the row's common factor.
///
/// In contracts: the rows, and the places of the variables with which they opened.
#[derive(Drop)]
pub struct Tableau {
    alloc: Global,
    columns: Vec<Column>,
    rows: Vec<Vec<i128>>,
    openers: Vec<usize>,
    basis: Vec<usize>,
    // Room for what is kept of the row at which a variable enters.
    room: Vec<i128>,
    reach: Option<Reach>,
}

impl Model for Tableau {
    ghost use Rattle.kept_rows.specs.State.{State};

    ghost Value = { State };

    ghost use Rattle.kept_rows.specs.Kept.{kept, IsKept};

    ghost view = { kept };

    ghost invariant = { IsKept };
}

/// How far the columns reach.
fn reach_of_all(columns: &[Column], last: usize) -> Option<Reach>
    requires { All (λ c. length c.numbers.items ≡ length c.at.items) columns.now }
    ensures { AreWithin last result columns.now }
{
    let mut reach = Some(Reach { others: 0, last: 0 });
    for column in columns {
        reach = reach_with(reach, column, last);
    }
    reach
}

impl Tableau {
    /// What is to be kept of rows as they open: each basic variable has 1 in its own row, and 0 in the others.
    pub fn open(alloc: Global, rows: &[Vec<i128>], basis: Vec<usize>) -> Result<Tableau, AllocError>
        requires { AreOpening (table rows.now basis.items) }
        ensures rows { IfOk result (λ t. t.rows ≡ table rows.now basis.items) }
        ensures openers { IfOk result (λ t. t.openers ≡ basis.items) }
    {
        let columns = opening_columns(alloc, rows, rows[rows.len() - 1].len())?;
        let kept = kept_rows(alloc, rows, &basis)?;
        let openers = copy_of(alloc, &basis)?;
        let room = kept_row(alloc, &rows[0], &basis)?;
        let reach = reach_of_all(&columns, openers.len() - 1);
        Ok(Tableau {
            alloc,
            columns,
            rows: kept,
            openers,
            basis,
            room,
            reach,
        })
    }

    /// How many rows there are.
    pub fn height(&self) -> usize
        ensures { result ≡ length self.now.rows.rows }
    {
        self.rows.len()
    }

    /// How many numbers a row has.
    pub fn width(&self) -> usize
        ensures { result ≡ width_of self.now.rows }
    {
        self.columns.len()
    }

    /// The number at place j of row h.
    pub fn number(&self, h: usize, j: usize) -> i128
        requires row { h < length self.now.rows.rows }
        requires place { j < length (row_of self.now.rows h) }
        ensures { result ≡ number (row_of self.now.rows h) j }
    {
        entry(&self.rows[h], &self.columns[j])
    }

    /// The places of the basic variables, by row.
    pub fn basis(&self) -> &[usize]
        ensures { result.now ≡ self.now.rows.basis }
    {
        &self.basis
    }

    /// Enters a variable that has each opening row so many times. Where memory is wanting, or a sum leaves i128, the rows stay.
    pub fn add(&mut self, numbers: &[i128]) -> Result<Result<(), Overflow>, AllocError>
        requires { length numbers.now ≡ length self.old.openers }
        ensures { MatchResult result (λ r. MatchResult r
            (λ _. self.new ≡ with_variable numbers.now self.old)
            (λ f. (self.new ≡ self.old)
            × IsRowFault self.old.rows.rows self.old.openers numbers.now f))
            (λ _. self.new ≡ self.old) }
    {
        if let Err(fault) = form_sums(&self.rows, numbers) {
            return Ok(Err(fault));
        }
        let column = column_of(self.alloc, numbers)?;
        let reach = reach_with(self.reach, &column, self.openers.len() - 1);
        self.columns.push(column)?;
        self.reach = reach;
        Ok(Ok(()))
    }

    /// The variable at place v enters at row h. After an overflow the rows are open.
    pub fn pivot(&mut self, h: usize, v: usize) -> Result<(), Overflow>
        requires { CanPivot self.old.rows v h }
        ensures pivot { MatchResult result (λ _. IsPivotAt self.old.rows v h self.new.rows)
            (IsClearingFault (row_of self.old.rows h) h v self.old.rows.rows) }
        ensures openers { self.new.openers ≡ self.old.openers }
    {
        self.room.copy_from_slice(&self.rows[h]);
        clear(
            &self.columns,
            self.reach,
            &mut self.rows,
            &self.basis,
            &self.room,
            h,
            v,
        )?;
        self.basis[h] = v;
        Ok(())
    }
}
