//! Reels and lots that are held.

ghost use Rattle.std.specs.Prelude.{◌≡◌, None, Some, OnOk, if◌then◌else◌};
ghost use Rattle.line_book.specs.declared.note.Stock.{Stock};
ghost use Rattle.line_book.specs.Setup.{hold_at};
ghost use Rattle.line_book.specs.Holds.{held_after, same_stock};

use crate::note::{Matter, Stock};
use desk_types::Id;
use std::alloc::{AllocError, Global};
use std::collections::BTreeMap;

/// The holds in force: the number of the last hold of each held reel and lot.
#[derive(Drop)]
pub struct Holds {
    reels: BTreeMap<Id, u32>,
    lots: BTreeMap<Id, u32>,
}

impl Holds {
    /// Returns no holds. Takes no memory.
    pub fn new(alloc: Global) -> Holds
        ensures { (stock : Stock) → hold_at result stock ≡ None }
    {
        Holds {
            reels: BTreeMap::new(alloc),
            lots: BTreeMap::new(alloc),
        }
    }

    /// Returns the number of the hold in force.
    pub fn on(&self, stock: &Stock) -> Option<u32>
        ensures { result ≡ hold_at self.now stock.now }
    {
        match stock {
            Stock::Reel(reel) => self.reels.get(reel).copied(),
            Stock::Lot(lot) => self.lots.get(lot).copied(),
        }
    }

    /// Takes in an entry of the book. After an `Err` drop the holds.
    pub fn noted(&mut self, number: u32, matter: &Matter) -> Result<(), AllocError>
        ensures { (stock : Stock) → OnOk result
            (hold_at self.new stock ≡ held_after stock number matter.now (hold_at self.old stock)) }
    {
        match matter {
            Matter::Hold { stock } => self.hold(stock, number),
            Matter::Release { stock } => {
                self.release(stock);
                Ok(())
            }
            _ => Ok(()),
        }
    }

    fn hold(&mut self, stock: &Stock, number: u32) -> Result<(), AllocError>
        ensures { (s : Stock) → OnOk result (hold_at self.new s
            ≡ (if same_stock stock.now s then Some number else hold_at self.old s)) }
    {
        match stock {
            Stock::Reel(reel) => self.reels.insert(*reel, number)?,
            Stock::Lot(lot) => self.lots.insert(*lot, number)?,
        };
        Ok(())
    }

    fn release(&mut self, stock: &Stock)
        ensures { (s : Stock) → hold_at self.new s
            ≡ (if same_stock stock.now s then None else hold_at self.old s) }
    {
        match stock {
            Stock::Reel(reel) => self.reels.remove(reel),
            Stock::Lot(lot) => self.lots.remove(lot),
        };
    }
}
