// Rows of whole numbers, cross-linked with the columns of their variables.

use cdcl_fuel::{Fault, Fuel, at, drop_at, gcd_of_words, near, near_mut, put, small};
use std::alloc::Global;
use std::mem;

pub const NOWHERE: u32 = 0xFFFF_FFFF;

/// A coefficient of a row, and where the column of its variable tells of it.
#[derive(Clone, Copy)]
pub struct Entry {
    pub x: u32,
    pub at: u32,
    pub c: i64,
}

/// A sum that is 0, with one variable that the others give.
#[derive(Drop)]
pub struct Row {
    pub basic: u32,
    /// Where the basic variable stands.
    pub own: u32,
    pub entries: Vec<Entry>,
}

/// A row in which a variable stands, and where.
#[derive(Clone, Copy)]
pub struct Cell {
    pub row: u32,
    pub entry: u32,
}

#[derive(Drop)]
pub struct Tableau {
    alloc: Global,
    pub rows: Vec<Row>,
    pub columns: Vec<Vec<Cell>>,
    pub row_of: Vec<u32>,
    place: Vec<u32>,
}

impl Tableau {
    pub fn new(alloc: Global) -> Tableau {
        Tableau {
            alloc,
            rows: Vec::new(alloc),
            columns: Vec::new(alloc),
            row_of: Vec::new(alloc),
            place: Vec::new(alloc),
        }
    }

    /// A new variable.
    pub fn fresh(&mut self) -> Result<u32, Fault> {
        let x = small(self.columns.len())?;
        self.columns.push(Vec::new(self.alloc))?;
        self.row_of.push(NOWHERE)?;
        self.place.push(0)?;
        Ok(x)
    }

    /// The coefficient of the basic variable of row r.
    #[inline]
    pub fn basic_coefficient(&self, r: u32) -> Result<i64, Fault> {
        let row = near(&self.rows, r as usize)?;
        Ok(at(&row.entries, row.own as usize)?.c)
    }

    /// A row that says that s is the sum.
    pub fn define(&mut self, s: u32, sum: &[(u32, i64)], fuel: &mut Fuel) -> Result<(), Fault> {
        let r = small(self.rows.len())?;
        self.rows.push(Row {
            basic: s,
            own: 0,
            entries: Vec::new(self.alloc),
        })?;
        self.enter(r, s, -1)?;
        for p in sum {
            self.enter(r, p.0, p.1)?;
        }
        put(&mut self.row_of, s as usize, r)?;
        for p in sum {
            let b = at(&self.row_of, p.0 as usize)?;
            if b != NOWHERE {
                let found = near(&self.rows, r as usize)?
                    .entries
                    .iter()
                    .position(|e| e.x == p.0);
                if let Some(i) = found {
                    self.eliminate(r, i, b, fuel)?;
                }
            }
        }
        Ok(())
    }

    /// Takes row r out. Its basic variable has no row then, and stands in none.
    pub fn remove(&mut self, r: u32) -> Result<(), Fault> {
        let row = near(&self.rows, r as usize)?;
        put(&mut self.row_of, row.basic as usize, NOWHERE)?;
        for k in (0..row.entries.len()).rev() {
            self.leave(r, k)?;
        }
        drop_at(&mut self.rows, r as usize)?;
        let Some(moved) = self.rows.get(r as usize) else {
            return Ok(());
        };
        for e in moved.entries.as_slice() {
            near_mut(near_mut(&mut self.columns, e.x as usize)?, e.at as usize)?.row = r;
        }
        put(&mut self.row_of, moved.basic as usize, r)
    }

    fn enter(&mut self, r: u32, x: u32, c: i64) -> Result<(), Fault> {
        let column = near_mut(&mut self.columns, x as usize)?;
        let row = near_mut(&mut self.rows, r as usize)?;
        let place = small(column.len())?;
        let entry = small(row.entries.len())?;
        row.entries.push(Entry { x, at: place, c })?;
        column.push(Cell { row: r, entry })?;
        Ok(())
    }

    fn leave(&mut self, r: u32, i: usize) -> Result<(), Fault> {
        let row = near_mut(&mut self.rows, r as usize)?;
        if i >= row.entries.len() {
            return Err(Fault::Broken);
        }
        let e = row.entries.swap_remove(i);
        let column = near_mut(&mut self.columns, e.x as usize)?;
        drop_at(column, e.at as usize)?;
        if let Some(cell) = column.get(e.at as usize).copied() {
            let other = near_mut(&mut self.rows, cell.row as usize)?;
            let f = near_mut(&mut other.entries, cell.entry as usize)?;
            f.at = e.at;
        }
        let row = near_mut(&mut self.rows, r as usize)?;
        if let Some(m) = row.entries.get(i).copied() {
            if m.x == row.basic {
                row.own = small(i)?;
            }
            let column = near_mut(&mut self.columns, m.x as usize)?;
            let cell = near_mut(column, m.at as usize)?;
            cell.entry = small(i)?;
        }
        Ok(())
    }

    /// Takes the basic variable of row r, which is the entry i of row t, out of t.
    pub fn eliminate(&mut self, t: u32, i: usize, r: u32, fuel: &mut Fuel) -> Result<(), Fault> {
        let a = self.basic_coefficient(r)?;
        let target = near(&self.rows, t as usize)?;
        fuel.spend(target.entries.len() as u64)?;
        let b = at(&target.entries, i)?.c;
        let g = gcd_of_words(a.unsigned_abs(), b.unsigned_abs());
        let g = i64::try_from(g).map_err(|_| Fault::Overflow)?;
        let m = a.checked_div(g).ok_or(Fault::Broken)?;
        let n = b
            .checked_div(g)
            .ok_or(Fault::Broken)?
            .checked_neg()
            .ok_or(Fault::Overflow)?;
        let source = near_mut(&mut self.rows, r as usize)?;
        let entries = mem::replace(&mut source.entries, Vec::new(self.alloc));
        fuel.spend(entries.len() as u64)?;
        self.scale(t, m)?;
        self.mix(t, n, &entries)?;
        let source = near_mut(&mut self.rows, r as usize)?;
        source.entries = entries;
        self.tidy(t)
    }

    /// Row t times m; tells where its variables stand.
    fn scale(&mut self, t: u32, m: i64) -> Result<(), Fault> {
        let row = near_mut(&mut self.rows, t as usize)?;
        let mut i: u32 = 0;
        for e in row.entries.iter_mut() {
            i = i.wrapping_add(1);
            put(&mut self.place, e.x as usize, i)?;
            if m != 1 {
                e.c = e.c.checked_mul(m).ok_or(Fault::Overflow)?;
            }
        }
        Ok(())
    }

    /// Adds n times the entries to row t; zeros stay in.
    fn mix(&mut self, t: u32, n: i64, entries: &[Entry]) -> Result<(), Fault> {
        for e in entries {
            let d = e.c.checked_mul(n).ok_or(Fault::Overflow)?;
            match at(&self.place, e.x as usize)?.checked_sub(1) {
                Some(i) => {
                    let row = near_mut(&mut self.rows, t as usize)?;
                    let f = near_mut(&mut row.entries, i as usize)?;
                    f.c = f.c.checked_add(d).ok_or(Fault::Overflow)?;
                }
                None => self.enter(t, e.x, d)?,
            }
        }
        let row = near(&self.rows, t as usize)?;
        for e in row.entries.as_slice() {
            put(&mut self.place, e.x as usize, 0)?;
        }
        Ok(())
    }

    /// Takes the zeros out of row t and divides it by what divides all.
    fn tidy(&mut self, t: u32) -> Result<(), Fault> {
        let n = near(&self.rows, t as usize)?.entries.len();
        let mut g: u64 = 0;
        for k in (0..n).rev() {
            let c = at(&near(&self.rows, t as usize)?.entries, k)?.c;
            if c == 0 {
                self.leave(t, k)?;
            } else if g != 1 {
                g = gcd_of_words(g, c.unsigned_abs());
            }
        }
        if g > 1 {
            let g = i64::try_from(g).map_err(|_| Fault::Overflow)?;
            let row = near_mut(&mut self.rows, t as usize)?;
            for e in row.entries.iter_mut() {
                e.c = e.c.checked_div(g).ok_or(Fault::Broken)?;
            }
        }
        Ok(())
    }

    /// Makes x, the entry k of row r, its basic variable in the place of b.
    pub fn pivot(&mut self, r: u32, b: u32, x: u32, k: u32, fuel: &mut Fuel) -> Result<(), Fault> {
        let row = near_mut(&mut self.rows, r as usize)?;
        row.basic = x;
        row.own = k;
        put(&mut self.row_of, x as usize, r)?;
        put(&mut self.row_of, b as usize, NOWHERE)?;
        for _ in 0..u64::MAX {
            let column = near(&self.columns, x as usize)?;
            let Some(cell) = column.iter().find(|q| q.row != r).copied() else {
                return Ok(());
            };
            self.eliminate(cell.row, cell.entry as usize, r, fuel)?;
        }
        Err(Fault::Steps)
    }
}
